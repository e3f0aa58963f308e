// A traffic key as either end holds it, and the limits of a held pair (question 1).
ghost use Rattle.std.specs.Prelude.{◌≡◌, ◌+◌, ◌-◌, ◌<◌, leb};
ghost use Rattle.key_traffic.specs.Traffic.{no_key_of, key_from_of, key_fits_of, follows, pair_fits_of};

use crate::numbers::{TekNumber, tek_after, tek_in_range};
use crate::octets::{KEY_OCTETS, octets, zero_past};
use questions::limits::TEK_LIFE_MAX;

// Octets of material that one key is made of, TEK and vector, and those for a SAID in one call: two keys.
pub const KEY_MATERIAL: usize = 32;

pub const SAID_MATERIAL: usize = 64;

// A traffic key with its number and deadline: TEK and vector at the front of 16 octets each, zeros after them.
#[repr(C)]
#[derive(Clone, Copy)]
pub struct TrafficKey {
    pub number: TekNumber,
    pub deadline: u64,
    pub tek: [u8; KEY_OCTETS],
    pub vector: [u8; KEY_OCTETS],
}

// A key that is not there: all zero.
pub fn no_key() -> TrafficKey
    ensures { result ≡ no_key_of }
{
    TrafficKey {
        number: TekNumber(0),
        deadline: 0,
        tek: [0u8; KEY_OCTETS],
        vector: [0u8; KEY_OCTETS],
    }
}

// The key in the 32 octets of `m` at `at`, `w` octets wide.
pub fn key_from(m: &[u8], at: usize, w: usize, number: TekNumber, deadline: u64) -> TrafficKey
    requires { at + 16 < 18446744073709551616 }
    ensures { result ≡ key_from_of m.now at w number deadline }
{
    TrafficKey {
        number,
        deadline,
        tek: octets(m, at, w),
        vector: octets(m, at + KEY_OCTETS, w),
    }
}

// A key's own limits, for keys of `w` octets.
pub fn key_fits(k: TrafficKey, w: usize) -> bool
    ensures { result ≡ key_fits_of w k }
{
    tek_in_range(k.number) & zero_past(k.tek, w) & zero_past(k.vector, w)
}

// Whether `newer` has the number after that of `older`.
pub fn is_next(older: TrafficKey, newer: TrafficKey) -> bool
    ensures { result ≡ follows older newer }
{
    newer.number == tek_after(older.number, 1)
}

// The limits of a pair that an end holds at `clock`.
pub fn pair_fits(older: TrafficKey, newer: TrafficKey, w: usize, clock: u64) -> bool
    ensures { result ≡ pair_fits_of w clock older newer }
{
    key_fits(older, w)
        & key_fits(newer, w)
        & is_next(older, newer)
        & (older.deadline < newer.deadline)
        & is_within(newer.deadline, clock, TEK_LIFE_MAX)
}

// Seconds less seconds, 0 where the second are more.
pub fn difference(a: u64, b: u64) -> u64
    ensures { result ≡ a - b }
{
    a.saturating_sub(b)
}

// Whether a second is at most `ahead` after `clock`; the sum is not formed, so it cannot wrap.
pub fn is_within(at: u64, clock: u64, ahead: u64) -> bool
    ensures { result ≡ leb at (clock + ahead) }
{
    at.saturating_sub(clock) <= ahead
}
