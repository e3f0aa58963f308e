// The insides of a message's compounds, TEK-Parameters (13) and SA-Descriptor (23): each is passed once, for its part of questions 8
// and 9 and for its fields (document 01, Messages).
ghost use Rattle.std.specs.Prelude.{◌≡◌};
ghost use Rattle.message_compounds.specs.Compounds.{part_of, params_read, descriptor_read, rest_sound_of, in_order_value, pair_of, four_complete, four_value, no_compounds_of, compounds_of};

use key_traffic::numbers::{TekNumber, tek_after};
use message_attributes::octets::{be16_of, be32_of, key_octets, octet, part};
use message_holders::pass::pass_inside;
use message_holders::slots::{
    COMPOUNDS_KEPT, INSIDE_KEY_LIFETIME, INSIDE_KEY_NUMBER, INSIDE_SA_TYPE, INSIDE_SAID,
    INSIDE_SUITE, INSIDE_TEK, INSIDE_VECTOR, ONCE,
};
use message_rules::codes::{
    CODE_AUTHORIZATION_REPLY, CODE_KEY_REPLY, TYPE_SA_DESCRIPTOR, TYPE_TEK_PARAMETERS,
};
use message_rules::fields::{Descriptor, Params, Place, no_descriptors, no_params};
use questions::apart::all_apart;
use questions::limits::SAIDS_MAX;

// TEK-Parameters of a Key Reply.
pub const KEY_REPLY_PARAMS: usize = 2;

// Of one compound: question 8, whether each required attribute is there once, and its fields.
#[derive(Clone, Copy)]
pub struct Read<T> {
    pub fields: T,
    pub sound: bool,
    pub complete: bool,
}

// Of all compounds of a message: questions 8 and 9, and the fields; `count` is that of the SA-Descriptors.
#[derive(Clone, Copy)]
pub struct Compounds {
    pub older: Params,
    pub newer: Params,
    pub descriptors: [Descriptor; SAIDS_MAX],
    pub count: usize,
    pub sound: bool,
    pub complete: bool,
}

// A part of a message.
fn part_at(m: &[u8], p: Place) -> &[u8]
    ensures { result.now ≡ part_of m.now p }
{
    part(m, p.start, p.len)
}

fn params_in(v: &[u8]) -> Read<Params>
    ensures { result ≡ params_read v.now }
{
    let r = pass_inside(v, TYPE_TEK_PARAMETERS);
    let tek = r.slots[INSIDE_TEK];
    let life = r.slots[INSIDE_KEY_LIFETIME];
    let number = r.slots[INSIDE_KEY_NUMBER];
    let vector = r.slots[INSIDE_VECTOR];
    let fields = Params {
        number: TekNumber(octet(part(v, number.start, number.len), 0)),
        life: be32_of(part(v, life.start, life.len)),
        tek: key_octets(part(v, tek.start, tek.len)),
        vector: key_octets(part(v, vector.start, vector.len)),
    };
    Read {
        fields,
        sound: r.sound,
        complete: (tek.n == ONCE) & (life.n == ONCE) & (number.n == ONCE) & (vector.n == ONCE),
    }
}

fn descriptor_in(v: &[u8]) -> Read<Descriptor>
    ensures { result ≡ descriptor_read v.now }
{
    let r = pass_inside(v, TYPE_SA_DESCRIPTOR);
    let said = r.slots[INSIDE_SAID];
    let kind = r.slots[INSIDE_SA_TYPE];
    let suite = r.slots[INSIDE_SUITE];
    let fields = Descriptor {
        said: be16_of(part(v, said.start, said.len)),
        kind: octet(part(v, kind.start, kind.len), 0),
        suite: be16_of(part(v, suite.start, suite.len)),
    };
    Read {
        fields,
        sound: r.sound,
        complete: (said.n == ONCE) & (kind.n == ONCE) & (suite.n == ONCE),
    }
}

// The newer's number is the older's and 1, mod 16, and the older's life is below the newer's.
fn is_in_order(older: Params, newer: Params) -> bool
    ensures { result ≡ in_order_value older newer }
{
    (newer.number == tek_after(older.number, 1)) & (older.life < newer.life)
}

// Question 8 of a third and a fourth TEK-Parameters, which a message that is taken does not have.
fn is_rest_sound(m: &[u8], count: usize, at: [Place; COMPOUNDS_KEPT]) -> bool
    ensures { result ≡ rest_sound_of m.now count at }
{
    if count <= KEY_REPLY_PARAMS {
        true
    } else {
        pass_inside(part_at(m, at[2]), TYPE_TEK_PARAMETERS).sound
            & pass_inside(part_at(m, at[3]), TYPE_TEK_PARAMETERS).sound
    }
}

fn pair_in(m: &[u8], count: usize, at: [Place; COMPOUNDS_KEPT]) -> Compounds
    ensures { result ≡ pair_of m.now count at }
{
    let older = params_in(part_at(m, at[0]));
    let newer = params_in(part_at(m, at[1]));
    Compounds {
        sound: older.sound & newer.sound & is_rest_sound(m, count, at),
        complete: older.complete & newer.complete & is_in_order(older.fields, newer.fields),
        older: older.fields,
        newer: newer.fields,
        ..no_compounds()
    }
}

// Of n SA-Descriptors up to four, those that are there are whole and have different SAIDs. The four are named, as `four_complete` names them.
fn are_four_complete(
    n: usize,
    v: Read<Descriptor>,
    w: Read<Descriptor>,
    x: Read<Descriptor>,
    y: Read<Descriptor>,
) -> bool
    ensures { result ≡ four_complete n v w x y }
{
    ((n <= 0) | v.complete)
        & ((n <= 1) | w.complete)
        & ((n <= 2) | x.complete)
        & ((n <= 3) | y.complete)
        & all_apart(
            n,
            v.fields.said,
            w.fields.said,
            x.fields.said,
            y.fields.said,
        )
}

fn four_in(m: &[u8], count: usize, at: [Place; COMPOUNDS_KEPT]) -> Compounds
    ensures { result ≡ four_value m.now count at }
{
    let v = descriptor_in(part_at(m, at[0]));
    let w = descriptor_in(part_at(m, at[1]));
    let x = descriptor_in(part_at(m, at[2]));
    let y = descriptor_in(part_at(m, at[3]));
    Compounds {
        sound: v.sound & w.sound & x.sound & y.sound,
        complete: are_four_complete(count, v, w, x, y),
        count,
        descriptors: [v.fields, w.fields, x.fields, y.fields],
        ..no_compounds()
    }
}

fn no_compounds() -> Compounds
    ensures { result ≡ no_compounds_of }
{
    Compounds {
        sound: true,
        complete: true,
        count: 0,
        descriptors: no_descriptors(),
        older: no_params(),
        newer: no_params(),
    }
}

// The compounds of message m of code c: how many there are, up to 5, and where the first four stand.
pub fn compounds_in(c: u8, m: &[u8], count: usize, at: [Place; COMPOUNDS_KEPT]) -> Compounds
    ensures { result ≡ compounds_of c m.now count at }
{
    match c {
        CODE_KEY_REPLY => pair_in(m, count, at),
        CODE_AUTHORIZATION_REPLY => four_in(m, count, at),
        _ => no_compounds(),
    }
}
