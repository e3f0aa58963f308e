// The record of an association, and its limits (question 1).
ghost use Rattle.std.specs.Prelude.{◌≡◌};
ghost use Rattle.key_traffic.specs.Addresses.{said_fits_of};
ghost use Rattle.key_association.specs.Record.{record_fits_of, deadlines_fit_of};

use key_traffic::suites::{suite_known, width};
use key_traffic::traffic::{TrafficKey, is_next, key_fits};
use questions::limits::SAID_MAX;

// A SAID with its suite and the two traffic keys that the head-end holds for it.
#[repr(C)]
#[derive(Clone, Copy)]
pub struct Assoc {
    pub said: u16,
    pub suite: u16,
    pub older: TrafficKey,
    pub newer: TrafficKey,
}

// A SAID has 14 bits.
pub fn said_fits(said: u16) -> bool
    ensures { result ≡ said_fits_of said }
{
    said <= SAID_MAX
}

// Whether the older's deadline is after `clock`, and the newer's `half` more.
pub fn deadlines_fit(older: u64, newer: u64, half: u64, clock: u64) -> bool
    ensures { result ≡ deadlines_fit_of half clock older newer }
{
    if older <= clock {
        return false;
    }
    if newer < older {
        return false;
    }
    newer - older == half
}

// The limits of a record at `clock`.
pub fn record_fits(a: Assoc, half: u64, clock: u64) -> bool
    ensures { result ≡ record_fits_of half clock a }
{
    let w = width(a.suite);
    said_fits(a.said)
        & suite_known(a.suite)
        & key_fits(a.older, w)
        & key_fits(a.newer, w)
        & is_next(a.older, a.newer)
        & deadlines_fit(a.older.deadline, a.newer.deadline, half, clock)
}
