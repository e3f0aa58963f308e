// What a listing names, and the records that it makes.
ghost use Rattle.std.specs.Prelude.{◌≡◌, ◌+◌, ◌≤◌, ◌<◌, length};
ghost use Rattle.key_association.specs.Listing.{Listable, no_listing_of, listed_of, names_of};

use crate::mint::mint;
use crate::record::Assoc;
use key_traffic::numbers::TekNumber;
use key_traffic::suites::width;
use key_traffic::traffic::KEY_MATERIAL;
use questions::limits::SAIDS_MAX;

// Numbers of a listed record's two keys, generations 0 and 1.
const FIRST_NUMBER: u8 = 0;

const SECOND_NUMBER: u8 = 1;

// The SAIDs of a modem with their suites, in listing order: the first `count` of four places.
#[repr(C)]
#[derive(Clone, Copy)]
pub struct Listing {
    pub count: usize,
    pub saids: [u16; SAIDS_MAX],
    pub suites: [u16; SAIDS_MAX],
}

// A listing that names nothing.
pub fn no_listing() -> Listing
    ensures { result ≡ no_listing_of }
{
    Listing {
        count: 0,
        saids: [0u16; SAIDS_MAX],
        suites: [0u16; SAIDS_MAX],
    }
}

// Whether `said` is one of the first `count` of four.
pub fn is_named(count: usize, s0: u16, s1: u16, s2: u16, s3: u16, said: u16) -> bool
    ensures { result ≡ names_of count s0 s1 s2 s3 said }
{
    [s0, s1, s2, s3].iter().take(count).any(|s| *s == said)
}

// The record of the SAID at place `i` of a listing at the second `clock`, from the 64 octets of `m` at `at`.
pub fn listed(l: Listing, i: usize, half: u64, clock: u64, m: &[u8], at: usize) -> Assoc
    requires { Listable half clock × ((i < 4) × (at + 64 ≤ length m.now)) }
    ensures { result ≡ listed_of half clock m.now at l i }
{
    let suite = l.suites[i];
    let w = width(suite);
    Assoc {
        said: l.saids[i],
        suite,
        older: mint(m, at, w, TekNumber(FIRST_NUMBER), clock + half),
        newer: mint(
            m,
            at + KEY_MATERIAL,
            w,
            TekNumber(SECOND_NUMBER),
            clock + 2 * half,
        ),
    }
}
