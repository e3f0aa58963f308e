// One pass over each holder, with the attribute reader: all that questions 8 and 9 and the fields need of it, as numbers by value. A pass is thin: the
// reader steps, and a turn on values enters what it has found.
ghost use Rattle.std.specs.Prelude.{◌≡◌, ◌≤◌, ◌<◌, length};
ghost use Rattle.message_holders.specs.Slots.{no_slot, noted_of};
ghost use Rattle.message_holders.specs.Pass.{inside_pass, body_pass};

use crate::body::{body_end, body_start, body_turn};
use crate::inside::{inside_end, inside_start, inside_turn};
use crate::slots::{BODY_SLOTS, COMPOUNDS_KEPT, INSIDE_SLOTS, ONCE, REPEATED};
use message_attributes::reader::{next, opened};
use message_rules::codes::HEAD_OCTETS;
use message_rules::fields::Place;

// How often a type stands in its holder, up to 2, and where its first value stands.
#[derive(Clone, Copy)]
pub struct Slot {
    pub n: usize,
    pub start: usize,
    pub len: usize,
}

// Of the inside of a compound: question 8, and a slot for each required type.
#[derive(Clone, Copy)]
pub struct Inside {
    pub slots: [Slot; INSIDE_SLOTS],
    pub sound: bool,
}

// Of a body: question 8 but for the insides of the first four compounds, the last type (NO_LAST_TYPE for none), a slot for each plain type that
// is needed, how many compounds there are, up to 5, and where the first four stand.
#[derive(Clone, Copy)]
pub struct Body {
    pub slots: [Slot; BODY_SLOTS],
    pub compounds: [Place; COMPOUNDS_KEPT],
    pub count: usize,
    pub last: usize,
    pub sound: bool,
}

// The slot of a type that its holder does not have.
pub fn no_slot() -> Slot
    ensures { result ≡ no_slot }
{
    Slot {
        n: 0,
        start: 0,
        len: 0,
    }
}

// A slot after one more value of its type.
pub fn noted(t: Slot, start: usize, len: usize) -> Slot
    ensures { result ≡ noted_of t start len }
{
    if t.n == 0 {
        Slot {
            n: ONCE,
            start,
            len,
        }
    } else {
        Slot { n: REPEATED, ..t }
    }
}

// The inside of a compound of type h.
pub fn pass_inside<'a>(s: &'a [u8], h: u8) -> Inside
    ensures { result ≡ inside_pass h s.now }
{
    let mut a = opened(s, 0);
    let mut r = inside_start();
    loop {
        let n = next(a);
        r = inside_turn(s, h, r, n.attribute);
        if r.over {
            return inside_end(r);
        }
        a = n.rest;
    }
}

// The body of message m of code h: its attributes begin at 4.
pub fn pass_body<'a>(m: &'a [u8], h: u8) -> Body
    requires { (h < 13) × (4 ≤ length m.now) }
    ensures { result ≡ body_pass h m.now }
{
    let mut a = opened(m, HEAD_OCTETS);
    let mut r = body_start();
    loop {
        let n = next(a);
        r = body_turn(m, h, r, n.attribute);
        if r.over {
            return body_end(r);
        }
        a = n.rest;
    }
}
