// Question 1 of the head-end's state and of a listing's fields.
ghost use Rattle.std.specs.Prelude.{◌≡◌, [], ◌<◌, take};
ghost use Rattle.key_traffic.specs.Addresses.{address_fits_of};
ghost use Rattle.headend_limits.specs.Limits.{listing_fits_of, new_at, saids_differ_of, auth_keys_fit_of, entry_fits_of, shares, is_apart_of, all_apart_of, entries_from, head_fits_of};

use headend_state::entries::{in_use, is_listing};
use headend_state::state::{ALLOWED, AuthKeys, Entry, HeadEnd, NO_DEADLINE};
use key_association::listing::{Listing, is_named};
use key_association::record::said_fits;
use key_traffic::numbers::ak_in_range;
use key_traffic::suites::suite_known;
use key_traffic::traffic::is_within;
use questions::limits::{ADDRESS_BOUND, CLOCK_MAX, MODEMS_MAX, RECORDS_MAX, SAIDS_MAX, SAIDS_MIN};
use questions::settings::settings_fit;

// An address has 48 bits.
pub fn address_fits(address: u64) -> bool
    ensures { result ≡ address_fits_of address }
{
    address < ADDRESS_BOUND
}

// A listing's fields: 1 to 4 SAIDs of 14 bits, with known suites.
#[tactic(auto, unfolding(crate::specs::Limits::listing_fits_of, crate::specs::Limits::place_fits_of))]
pub fn listing_fits(l: Listing) -> bool
    ensures { result ≡ listing_fits_of l }
{
    (SAIDS_MIN <= l.count)
        & (l.count <= SAIDS_MAX)
        & l.saids
            .iter()
            .zip(l.suites.iter())
            .take(l.count)
            .all(|(said, suite)| said_fits(*said) & suite_known(*suite))
}

// Whether the SAID at a place is none of those before it.
#[tactic(auto, unfolding(crate::specs::Limits::new_at))]
fn is_new_at(l: Listing, i: usize) -> bool
    requires { i < 4 }
    ensures { result ≡ new_at l i }
{
    let [s0, s1, s2, s3] = l.saids;
    (l.count <= i) | !is_named(i, s0, s1, s2, s3, l.saids[i])
}

// No SAID twice. Three places are asked one by one: an iterator over 1..4 that calls `is_new_at` is no plainer.
#[tactic(auto, unfolding(crate::specs::Limits::saids_differ_of))]
pub fn saids_differ(l: Listing) -> bool
    ensures { result ≡ saids_differ_of l }
{
    is_new_at(l, 1) & is_new_at(l, 2) & is_new_at(l, 3)
}

#[tactic(auto, unfolding(crate::specs::Limits::auth_keys_fit_of))]
fn auth_keys_fit(life: u64, clock: u64, k: AuthKeys) -> bool
    ensures { result ≡ auth_keys_fit_of life clock k }
{
    ak_in_range(k.next)
        & is_within(k.older, clock, life)
        & is_within(k.newer, clock.max(k.older), life)
        & ((k.older < k.newer) | ((k.older == NO_DEADLINE) & (k.newer == NO_DEADLINE)))
}

#[tactic(auto, unfolding(crate::specs::Limits::entry_fits_of))]
fn entry_fits(life: u64, clock: u64, e: Entry) -> bool
    ensures { result ≡ entry_fits_of life clock e }
{
    address_fits(e.address)
        & (e.allowed <= ALLOWED)
        & listing_fits(e.listing)
        & saids_differ(e.listing)
        & auth_keys_fit(life, clock, e.keys)
}

// Whether two listings name a SAID in common.
#[tactic(auto, unfolding(crate::specs::Limits::shares, crate::specs::Limits::shares_at))]
fn is_sharing(l: Listing, m: Listing) -> bool
    ensures { result ≡ shares l m }
{
    l.saids
        .iter()
        .take(l.count)
        .any(|said| is_listing(m, *said))
}

// Whether an entry has another address and no SAID in common.
#[tactic(auto, unfolding(crate::specs::Limits::is_apart_of))]
fn is_apart(address: u64, l: Listing, e: Entry) -> bool
    ensures { result ≡ is_apart_of address l e }
{
    (e.address != address) & !is_sharing(l, e.listing)
}

// Whether each of these entries is apart from an address and a listing.
fn are_apart(entries: &[Entry], address: u64, l: Listing) -> bool
    ensures { result ≡ all_apart_of address l entries.now }
{
    entries.iter().all(|e| is_apart(address, l, *e))
}

// The same of the first few of 16.
pub fn all_apart(entries: [Entry; MODEMS_MAX], n: usize, address: u64, l: Listing) -> bool
    ensures { result ≡ all_apart_of address l (take n entries) }
{
    are_apart(&entries[..in_use(n)], address, l)
}

// Whether each of these entries is within the limits, and apart from those before it.
fn entries_fit(entries: &[Entry], life: u64, clock: u64) -> bool
    ensures { result ≡ entries_from life clock [] entries.now }
{
    for (i, e) in entries.iter().enumerate() {
        if !(entry_fits(life, clock, *e) & are_apart(&entries[..i], e.address, e.listing)) {
            return false;
        }
    }
    true
}

// Question 1 of the head-end's state.
#[tactic(auto, unfolding(crate::specs::Limits::head_fits_of))]
pub fn head_fits(h: HeadEnd) -> bool
    ensures { result ≡ head_fits_of h }
{
    settings_fit(h.settings)
        & (h.clock <= CLOCK_MAX)
        & (h.modems <= MODEMS_MAX)
        & (h.used <= RECORDS_MAX)
        & entries_fit(&h.entries[..in_use(h.modems)], h.settings.ak.life, h.clock)
}
