// One turn of the pass over a message's body: what the attribute reader has found, entered into what the pass has so far. That has a field for each
// slot and place, and no array, so that a turn by value keeps them where they are.
ghost use Rattle.std.specs.Prelude.{◌≡◌, false, ◌&&◌, ◌<◌, length};
ghost use Rattle.message_holders.specs.Pass.{noted_at_of, body_record, no_body};
ghost use Rattle.message_holders.specs.Turn.{Within, over_after, body_of, body_after, kept_at, last_is_of};

use crate::pass::{Body, Slot, no_slot, noted, pass_inside};
use crate::range::{body_slot, in_range};
use crate::slots::{
    COMPOUNDS_KEPT, COMPOUNDS_MORE, NO_LAST_TYPE, SLOT_AUTH_KEY, SLOT_COMPOUND, SLOT_ERROR,
    SLOT_KEY_LIFETIME, SLOT_KEY_NUMBER, SLOT_NOT_REQUIRED, SLOT_SAID,
};
use message_attributes::attribute::Next;
use message_rules::fields::Place;

// `Body` while the body is passed, and whether it is at its end: a slot for each plain type that is needed somewhere, and where the first four
// compounds stand.
#[derive(Clone, Copy)]
pub struct BodySoFar {
    pub number: Slot,
    pub said: Slot,
    pub life: Slot,
    pub error: Slot,
    pub key: Slot,
    pub digest: Slot,
    pub first: Place,
    pub second: Place,
    pub third: Place,
    pub fourth: Place,
    pub count: usize,
    pub last: usize,
    pub sound: bool,
    pub over: bool,
}

// Before the first attribute of a body.
pub fn body_start() -> BodySoFar
    ensures { (body_of result ≡ no_body) × (result.over ≡ false) }
{
    let none = no_slot();
    let nowhere = Place { start: 0, len: 0 };
    BodySoFar {
        number: none,
        said: none,
        life: none,
        error: none,
        key: none,
        digest: none,
        first: nowhere,
        second: nowhere,
        third: nowhere,
        fourth: nowhere,
        count: 0,
        last: NO_LAST_TYPE,
        sound: true,
        over: false,
    }
}

// What the pass over a body hands back.
pub fn body_end(r: BodySoFar) -> Body
    ensures { result ≡ body_of r }
{
    Body {
        slots: [r.number, r.said, r.life, r.error, r.key, r.digest],
        compounds: [r.first, r.second, r.third, r.fourth],
        count: r.count,
        last: r.last,
        sound: r.sound,
    }
}

// An attribute of type k was the last.
fn body_last(r: BodySoFar, k: u8) -> BodySoFar
    ensures { (body_of result ≡ last_is_of k (body_of r)) × (result.over ≡ r.over) }
{
    BodySoFar {
        last: usize::from(k),
        ..r
    }
}

// A value of the type of slot i is noted; fits says whether it has its length and range.
fn body_noted(r: BodySoFar, i: usize, start: usize, len: usize, fits: bool) -> BodySoFar
    requires { i < 6 }
    ensures { (body_of result ≡ body_record (r.sound && fits) r.last (noted_at_of (body_of r).slots i start len) r.count (body_of r).compounds) × (result.over ≡ r.over) }
{
    let sound = r.sound & fits;
    match i {
        SLOT_KEY_NUMBER => BodySoFar {
            number: noted(r.number, start, len),
            sound,
            ..r
        },
        SLOT_SAID => BodySoFar {
            said: noted(r.said, start, len),
            sound,
            ..r
        },
        SLOT_KEY_LIFETIME => BodySoFar {
            life: noted(r.life, start, len),
            sound,
            ..r
        },
        SLOT_ERROR => BodySoFar {
            error: noted(r.error, start, len),
            sound,
            ..r
        },
        SLOT_AUTH_KEY => BodySoFar {
            key: noted(r.key, start, len),
            sound,
            ..r
        },
        _ => BodySoFar {
            digest: noted(r.digest, start, len),
            sound,
            ..r
        },
    }
}

// One of the first four compounds.
fn body_kept(r: BodySoFar, start: usize, len: usize) -> BodySoFar
    requires { r.count < 4 }
    ensures { (body_of result ≡ kept_at start len (body_of r)) × (result.over ≡ r.over) }
{
    let place = Place { start, len };
    let count = r.count + 1;
    match r.count {
        0 => BodySoFar {
            first: place,
            count,
            ..r
        },
        1 => BodySoFar {
            second: place,
            count,
            ..r
        },
        2 => BodySoFar {
            third: place,
            count,
            ..r
        },
        _ => BodySoFar {
            fourth: place,
            count,
            ..r
        },
    }
}

// A turn over message m of code h. The inside of a fifth or further compound is passed here, for question 8.
pub fn body_turn(m: &[u8], h: u8, r: BodySoFar, found: Next) -> BodySoFar
    requires { (h < 13) × Within (length m.now) found }
    ensures { (body_of result ≡ body_after h m.now found (body_of r)) × (result.over ≡ over_after found r.over) }
{
    match found {
        Next::Attr { kind, start, len } => {
            let q = body_last(r, kind);
            let i = body_slot(h, kind);
            if SLOT_NOT_REQUIRED <= i {
                return q;
            }
            let v = &m[start..start + len];
            if i < SLOT_COMPOUND {
                return body_noted(q, i, start, len, in_range(h, kind, v));
            }
            if q.count < COMPOUNDS_KEPT {
                return body_kept(q, start, len);
            }
            BodySoFar {
                sound: q.sound & pass_inside(v, kind).sound,
                count: COMPOUNDS_MORE,
                ..q
            }
        }
        Next::Cut => BodySoFar {
            sound: false,
            last: NO_LAST_TYPE,
            over: true,
            ..r
        },
        Next::End => BodySoFar { over: true, ..r },
    }
}
