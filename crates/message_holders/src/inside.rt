// One turn of the pass over a compound's inside: what the attribute reader has found, entered into what the pass has so far. That has a field for each
// slot, and no array, so that a turn by value keeps them where they are.
ghost use Rattle.std.specs.Prelude.{◌≡◌, false, ◌&&◌, ◌<◌, length};
ghost use Rattle.message_holders.specs.Pass.{noted_at_of, inside_record, no_inside};
ghost use Rattle.message_holders.specs.Turn.{Within, over_after, inside_of, inside_after};

use crate::pass::{Inside, Slot, no_slot, noted};
use crate::range::{in_range, inside_slot};
use crate::slots::INSIDE_NOT_REQUIRED;
use message_attributes::attribute::Next;

// `Inside` while the inside is passed, and whether it is at its end.
#[derive(Clone, Copy)]
pub struct InsideSoFar {
    pub first: Slot,
    pub second: Slot,
    pub third: Slot,
    pub fourth: Slot,
    pub sound: bool,
    pub over: bool,
}

// Before the first attribute inside a compound.
pub fn inside_start() -> InsideSoFar
    ensures { (inside_of result ≡ no_inside) × (result.over ≡ false) }
{
    let none = no_slot();
    InsideSoFar {
        first: none,
        second: none,
        third: none,
        fourth: none,
        sound: true,
        over: false,
    }
}

// What the pass over an inside hands back.
pub fn inside_end(r: InsideSoFar) -> Inside
    ensures { result ≡ inside_of r }
{
    Inside {
        slots: [r.first, r.second, r.third, r.fourth],
        sound: r.sound,
    }
}

// A value of the type of slot i is noted; fits says whether it has its length and range.
fn inside_noted(r: InsideSoFar, i: usize, start: usize, len: usize, fits: bool) -> InsideSoFar
    requires { i < 4 }
    ensures { (inside_of result ≡ inside_record (r.sound && fits) (noted_at_of (inside_of r).slots i start len)) × (result.over ≡ r.over) }
{
    let sound = r.sound & fits;
    match i {
        0 => InsideSoFar {
            first: noted(r.first, start, len),
            sound,
            ..r
        },
        1 => InsideSoFar {
            second: noted(r.second, start, len),
            sound,
            ..r
        },
        2 => InsideSoFar {
            third: noted(r.third, start, len),
            sound,
            ..r
        },
        _ => InsideSoFar {
            fourth: noted(r.fourth, start, len),
            sound,
            ..r
        },
    }
}

// A turn over the inside s of a compound of type h.
pub fn inside_turn(s: &[u8], h: u8, r: InsideSoFar, found: Next) -> InsideSoFar
    requires { Within (length s.now) found }
    ensures { (inside_of result ≡ inside_after h s.now found (inside_of r)) × (result.over ≡ over_after found r.over) }
{
    match found {
        Next::Attr { kind, start, len } => {
            let i = inside_slot(h, kind);
            if INSIDE_NOT_REQUIRED <= i {
                return r;
            }
            let fits = in_range(h, kind, &s[start..start + len]);
            inside_noted(r, i, start, len, fits)
        }
        Next::Cut => InsideSoFar {
            sound: false,
            over: true,
            ..r
        },
        Next::End => InsideSoFar { over: true, ..r },
    }
}
