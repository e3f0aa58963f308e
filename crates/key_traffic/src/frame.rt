// The frame decision: which of the two held keys opens a frame, if any.
ghost use Rattle.std.specs.Prelude.{◌≡◌, cond};
ghost use Rattle.std.proofs.Math.Option.{some};
ghost use Rattle.questions.specs.Refusal.{number_of};
ghost use Rattle.questions.specs.declared.refusal.Refusal.TheVariants.{NoKeyForFrame};
ghost use Rattle.key_traffic.specs.Frame.{serves, key_held_of, key_for, opening_of, opening_number_of, opening_key_of};

use crate::numbers::TekNumber;
use crate::traffic::TrafficKey;
use questions::refusal::{DONE, Refusal};

// Directions of a frame: to the head-end, and to the modem.
pub const UP: u8 = 0;

pub const DOWN: u8 = 1;

// One of the two keys that are held for a SAID.
#[derive(Clone, Copy, Debug, PartialEq, Eq)]
pub enum Held {
    Older,
    Newer,
}

impl Held {
    // The one of the two keys that it names.
    pub fn of(self, older: TrafficKey, newer: TrafficKey) -> TrafficKey
        ensures { some result ≡ opening_key_of (Some self) older newer }
    {
        match self {
            Held::Older => older,
            Held::Newer => newer,
        }
    }
}

// Which of a pair's keys opens a frame, if any.
pub type Opening = Option<Held>;

// A held key serves a frame of its number while its deadline is after the clock.
pub fn is_serving(k: TrafficKey, number: TekNumber, clock: u64) -> bool
    ensures { result ≡ serves clock number k }
{
    (k.number == number) & (clock < k.deadline)
}

// The case, its number, and its value: 0 and the key that serves, or 13 and none.
pub fn decide(older: TrafficKey, newer: TrafficKey, number: TekNumber, clock: u64) -> Opening
    ensures { (result ≡ opening_of clock number older newer)
        × (opening_number_of result ≡ cond (key_held_of clock number older newer) 0 (number_of NoKeyForFrame))
        × (opening_key_of result older newer ≡ key_for clock number older newer) }
{
    if is_serving(older, number, clock) {
        Some(Held::Older)
    } else if is_serving(newer, number, clock) {
        Some(Held::Newer)
    } else {
        None
    }
}

// Document 01's number of a decision.
pub fn opening_number(o: Opening) -> u8
    ensures { result ≡ opening_number_of o }
{
    match o {
        Some(_) => DONE,
        None => u8::from(Refusal::NoKeyForFrame),
    }
}
