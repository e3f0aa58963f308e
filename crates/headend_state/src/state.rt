// The head-end's state, and what a call hands back.
ghost use Rattle.std.specs.Prelude.{◌≡◌};
ghost use Rattle.headend_state.specs.State.{no_entry_of, fresh_of, answered_call};

use key_association::listing::{Listing, no_listing};
use key_traffic::numbers::AkNumber;
use questions::limits::MODEMS_MAX;
use questions::refusal::Answer;
use questions::settings::Settings;

// What `allowed` may be: numbers and no enum, as C gives them.
pub const BARRED: u8 = 0;

pub const ALLOWED: u8 = 1;

// The deadline where no key is made; no Option, as C sees the struct.
pub const NO_DEADLINE: u64 = 0;

// The authorization keys of a modem: the number that the next one gets, and the deadlines of the last two made, or NO_DEADLINE.
#[repr(C)]
#[derive(Clone, Copy)]
pub struct AuthKeys {
    pub next: AkNumber,
    pub older: u64,
    pub newer: u64,
}

// What is kept of a listed modem; `allowed` is ALLOWED or BARRED.
#[repr(C)]
#[derive(Clone, Copy)]
pub struct Entry {
    pub address: u64,
    pub allowed: u8,
    pub listing: Listing,
    pub keys: AuthKeys,
}

// Of the entries the first `modems` are in use, of the lent records the first `used`; `taken` and `refused` count frames.
#[repr(C)]
#[derive(Clone, Copy)]
pub struct HeadEnd {
    pub settings: Settings,
    pub clock: u64,
    pub modems: usize,
    pub entries: [Entry; MODEMS_MAX],
    pub used: usize,
    pub taken: u64,
    pub refused: u64,
}

// What a call hands back: the answer, the head-end after it, and how many octets were written.
#[derive(Clone, Copy)]
pub struct Called {
    pub answer: Answer,
    pub state: HeadEnd,
    pub count: usize,
}

// No authorization key yet.
pub const NO_KEYS: AuthKeys = AuthKeys {
    next: AkNumber(0),
    older: NO_DEADLINE,
    newer: NO_DEADLINE,
};

// An entry that is not in use.
pub fn no_entry() -> Entry
    ensures { result ≡ no_entry_of }
{
    Entry {
        address: 0,
        allowed: BARRED,
        listing: no_listing(),
        keys: NO_KEYS,
    }
}

// A head-end at clock 0 that has listed no modem.
pub fn fresh(settings: Settings) -> HeadEnd
    ensures { result ≡ fresh_of settings }
{
    HeadEnd {
        settings,
        clock: 0,
        modems: 0,
        entries: [no_entry(); MODEMS_MAX],
        used: 0,
        taken: 0,
        refused: 0,
    }
}

// An answer with a state, where nothing is written.
pub fn answered(state: HeadEnd, answer: Answer) -> Called
    ensures { result ≡ answered_call answer state }
{
    Called {
        answer,
        state,
        count: 0,
    }
}
