// The entries of the listed modems: finding one by its address, exchanging one, and what its listing names.
ghost use Rattle.std.specs.Prelude.{◌≡◌, ◌≤◌, take};
ghost use Rattle.headend_state.specs.Entries.{in_use_of, known_from, known_of, lists, lists_suite, with_entry_of};

use crate::state::{Entry, HeadEnd, no_entry};
use key_association::listing::{Listing, is_named};
use questions::limits::MODEMS_MAX;

// What a search by address found: the entry and its place, or a blank entry and the number of entries in use. A flag beside values and no Option:
// `headend_limits::search::found_suits` and `headend_answers::answers::key_answer` promise their answers for any entry that stands here unlisted.
#[derive(Clone, Copy)]
pub struct Known {
    pub is_listed: bool,
    pub at: usize,
    pub entry: Entry,
}

// How many of the 16 places are in use; at most 16, whatever the state says.
pub fn in_use(modems: usize) -> usize
    ensures { (result ≡ in_use_of modems) × (result ≤ 16) }
{
    modems.min(MODEMS_MAX)
}

fn known_in(entries: [Entry; MODEMS_MAX], modems: usize, address: u64) -> Known
    ensures { result ≡ known_from address 0 (take modems entries) }
{
    match entries
        .iter()
        .take(modems)
        .position(|e| e.address == address)
    {
        Some(at) => Known {
            is_listed: true,
            at,
            entry: entries[at],
        },
        None => Known {
            is_listed: false,
            at: in_use(modems),
            entry: no_entry(),
        },
    }
}

// The entry of a modem, by its address.
pub fn entry_of(h: HeadEnd, address: u64) -> Known
    ensures { result ≡ known_of h address }
{
    known_in(h.entries, h.modems, address)
}

// The head-end with the entry at a place exchanged; as it was where there is no such place.
pub fn with_entry(h: HeadEnd, at: usize, e: Entry) -> HeadEnd
    ensures { result ≡ with_entry_of h at e }
{
    let mut next = h;
    if at < MODEMS_MAX {
        next.entries[at] = e;
    }
    next
}

// Whether a listing names a SAID.
pub fn is_listing(l: Listing, said: u16) -> bool
    ensures { result ≡ lists l said }
{
    let [s0, s1, s2, s3] = l.saids;
    is_named(l.count, s0, s1, s2, s3, said)
}

// Whether a listing names a SAID with a suite.
#[tactic(auto, unfolding(crate::specs::Entries::lists_suite))]
pub fn is_listing_suite(l: Listing, said: u16, suite: u16) -> bool
    ensures { result ≡ lists_suite l said suite }
{
    let named = l.saids.iter().zip(l.suites.iter());
    named
        .take(l.count)
        .any(|(s, u)| (*s == said) & (*u == suite))
}
