// Listing a modem: what is asked, and the head-end after it.
ghost use Rattle.std.specs.Prelude.{◌≡◌, ◌+◌, ◌*◌, ◌<◌, ◌≤◌, leb, eqb};
ghost use Rattle.headend_steps.specs.Listing.{list_answer_of, grown, list_called_of};

use headend_limits::limits::{address_fits, all_apart, head_fits, listing_fits, saids_differ};
use headend_limits::search::records_fit;
use headend_state::state::{ALLOWED, Called, Entry, HeadEnd, NO_KEYS, answered};
use key_association::listing::Listing;
use key_traffic::traffic::SAID_MATERIAL;
use questions::limits::{MODEMS_MAX, RECORDS_MAX};
use questions::refusal::{Answer, Refusal, ask};

// Whether `count` more than `used` are at most `limit`; the sum is not formed, so it cannot wrap.
fn has_room(used: usize, count: usize, limit: usize) -> bool
    ensures { result ≡ leb (used + count) limit }
{
    (used <= limit) && (count <= limit - used)
}

// Whether there are 64 octets of material for each of `count` SAIDs, and no more.
pub fn is_material(octets: usize, count: usize) -> bool
    ensures { result ≡ eqb octets (count * 64) }
{
    (octets % SAID_MATERIAL == 0) & (octets / SAID_MATERIAL == count)
}

// Questions 1, 2, 4 and 5 of a listing. `bad` is the place of the first record out of its limits, `clash` of the first that has one of
// the SAIDs, `len` the number of records lent.
#[tactic(auto, unfolding(crate::specs::Listing::list_answer_of, crate::specs::Listing::list_questions))]
fn list_answer(
    h: HeadEnd,
    address: u64,
    allowed: u8,
    l: Listing,
    bad: usize,
    clash: usize,
    len: usize,
    octets: usize,
) -> Answer
    ensures { result ≡ list_answer_of h address allowed l bad clash len octets }
{
    ask(
        head_fits(h)
            & records_fit(h, bad, len)
            & address_fits(address)
            & (allowed <= ALLOWED)
            & listing_fits(l),
        Refusal::OutOfLimits,
    )?;
    ask(
        (h.used <= len) & is_material(octets, l.count),
        Refusal::WrongLength,
    )?;
    ask(
        (h.modems < MODEMS_MAX)
            & has_room(h.used, l.count, RECORDS_MAX)
            & has_room(h.used, l.count, len),
        Refusal::NoFreePlace,
    )?;
    ask(
        all_apart(h.entries, h.modems, address, l) & (h.used <= clash) & saids_differ(l),
        Refusal::NotNew,
    )
}

// The head-end with one more entry, its records counted.
fn grown(h: HeadEnd, address: u64, allowed: u8, l: Listing) -> HeadEnd
    requires { (h.modems < 16) × (h.used + l.count ≤ 64) }
    ensures { result ≡ grown h address allowed l }
{
    let mut next = h;
    next.entries[h.modems] = Entry {
        address,
        allowed,
        listing: l,
        keys: NO_KEYS,
    };
    next.modems += 1;
    next.used += l.count;
    next
}

// The call: the head-end with the modem listed, where nothing is refused.
#[tactic(auto, unfolding(crate::specs::Listing::list_called_of))]
pub fn list_called(
    h: HeadEnd,
    address: u64,
    allowed: u8,
    l: Listing,
    bad: usize,
    clash: usize,
    len: usize,
    octets: usize,
) -> Called
    ensures { result ≡ list_called_of h address allowed l bad clash len octets }
{
    match list_answer(h, address, allowed, l, bad, clash, len, octets) {
        Ok(()) => answered(grown(h, address, allowed, l), Ok(())),
        Err(no) => answered(h, Err(no)),
    }
}
