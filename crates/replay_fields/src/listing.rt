// The pairs of a call that lists a modem.
ghost use Rattle.std.specs.Prelude.{◌≡◌, ◌≤◌, length};
ghost use Rattle.replay_fields.specs.Places.{fields_from_of, pair_at, with_pair_of, pairs_of};

use crate::fields::{field_at, number_of, to_u16};
use key_association::listing::{Listing, no_listing};
use questions::limits::SAIDS_MAX;

// A SAID and a suite, and the place after them.
#[derive(Clone, Copy)]
pub struct Pair {
    pub said: u16,
    pub suite: u16,
    pub next: usize,
}

// Two fields from a place on. Where there is but one, the second is empty and no number.
fn pair_at(line: &[u8], at: usize) -> Option<Pair>
    requires { length line.now ≤ 16384 }
    ensures { result ≡ pair_at line.now at }
{
    let a = field_at(line, at);
    let said = number_of(line, a)?;
    let b = field_at(line, a.end + 1);
    let suite = number_of(line, b)?;
    Some(Pair {
        said: to_u16(said),
        suite: to_u16(suite),
        next: b.end + 1,
    })
}

// One pair more. Past the fourth it only counts.
#[tactic(auto, unfolding(crate::specs::Places::with_pair_of))]
fn with_pair(l: Listing, said: u16, suite: u16) -> Listing
    requires { l.count ≤ 16384 }
    ensures { result ≡ with_pair_of l said suite }
{
    let mut more = l;
    more.count += 1;
    if l.count < SAIDS_MAX {
        more.saids[l.count] = said;
        more.suites[l.count] = suite;
    }
    more
}

// The pairs from a place to the line's end, if it has whole pairs alone.
pub fn pairs_from(line: &[u8], from: usize) -> Option<Listing>
    requires { length line.now ≤ 16384 }
    ensures { result ≡ pairs_of (fields_from_of line.now from) }
{
    let mut at = from;
    let mut listing = no_listing();
    // a pair begins where the one before it ends
    while at <= line.len() {
        let p = pair_at(line, at)?;
        listing = with_pair(listing, p.said, p.suite);
        at = p.next;
    }
    Some(listing)
}
