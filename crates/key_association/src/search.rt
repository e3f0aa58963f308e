// What a search over the records looks for, and what it hands back.
ghost use Rattle.std.specs.Prelude.{◌≡◌};
ghost use Rattle.key_association.specs.Search.{hit_of, found_at_of, missed_at_of};

use crate::listing::{Listing, is_named};
use crate::record::{Assoc, record_fits};
use key_traffic::traffic::no_key;

// A record of one SAID; a record out of its limits for a half lifetime and a clock; a record of one of a listing's SAIDs.
#[derive(Clone, Copy)]
pub enum Probe {
    OfSaid(u16),
    OutOfLimits(u64, u64),
    OfOneOf(Listing),
}

// Whether a record is what is looked for.
pub fn is_hit(a: Assoc, p: Probe) -> bool
    ensures { result ≡ hit_of p a }
{
    match p {
        Probe::OfSaid(said) => a.said == said,
        Probe::OutOfLimits(half, clock) => !record_fits(a, half, clock),
        Probe::OfOneOf(l) => {
            let s = l.saids;
            is_named(l.count, s[0], s[1], s[2], s[3], a.said)
        }
    }
}

// What a search found: the record and its place, or a blank record and the number of records.
#[repr(C)]
#[derive(Clone, Copy)]
pub struct Found {
    pub at: usize,
    pub held: Assoc,
}

// A search that found record `a` at place `at`.
pub fn found_at(at: usize, a: Assoc) -> Found
    ensures { result ≡ found_at_of at a }
{
    Found { at, held: a }
}

// A search that found none among `at` records.
pub fn missed_at(at: usize) -> Found
    ensures { result ≡ missed_at_of at }
{
    let key = no_key();
    let record = Assoc {
        said: 0,
        suite: 0,
        older: key,
        newer: key,
    };
    Found { at, held: record }
}
