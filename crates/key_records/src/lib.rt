// Thin functions over a lent slice of records: two searches, the clock's rule on the records in use, and storing a listing's
// records. Each record goes through a function of crate `key_association`, by value.

#![tactic(auto)]

ghost use Rattle.std.specs.Prelude.{◌≡◌, length};
ghost use Rattle.key_records.specs.Records.{first_of, lookup_of, rolled_to, stored_at, RollFit, StoreFit};

use key_association::listing::{Listing, listed};
use key_association::record::Assoc;
use key_association::roll::rolled;
use key_association::search::{Found, Probe, found_at, is_hit, missed_at};
use key_traffic::traffic::SAID_MATERIAL;

// The place of the first record that `p` looks for, or the number of records.
pub fn first(records: &[Assoc], p: Probe) -> usize
    ensures { result ≡ first_of p records.now }
{
    records
        .iter()
        .position(|a| is_hit(*a, p))
        .unwrap_or(records.len())
}

// The first record that `p` looks for, by value, or a blank one.
pub fn lookup(records: &[Assoc], p: Probe) -> Found
    ensures { result ≡ lookup_of p records.now }
{
    let at = first(records, p);
    if at < records.len() {
        found_at(at, records[at])
    } else {
        missed_at(at)
    }
}

// The clock goes to `t` for the first `used` records: record i has the 64 octets of `material` at 64 * i.
pub fn roll(records: &mut [Assoc], used: usize, half: u64, t: u64, material: &[u8])
    requires { RollFit used half t records.old (length material.now) }
    ensures { records.new ≡ rolled_to half t material.now 0 used records.old }
{
    for (i, a) in records[..used].iter_mut().enumerate() {
        *a = rolled(*a, half, t, material, i * SAID_MATERIAL);
    }
}

// The first `count` records of a listing are stored from `at` on: record i has the 64 octets of `material` at 64 * i.
pub fn store(
    records: &mut [Assoc],
    at: usize,
    count: usize,
    half: u64,
    clock: u64,
    l: Listing,
    material: &[u8],
)
    requires { StoreFit at count half clock (length records.old) (length material.now) }
    ensures { records.new ≡ stored_at at half clock material.now l count records.old }
{
    for (i, a) in records[at..at + count].iter_mut().enumerate() {
        *a = listed(l, i, half, clock, material, i * SAID_MATERIAL);
    }
}
