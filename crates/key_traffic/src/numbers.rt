// Key numbers of both kinds, 0 to 15. They are two types so that no function takes one for the other; each has two functions of a line, which a trait
// over both would make longer.
ghost use Rattle.std.specs.Prelude.{◌≡◌};
ghost use Rattle.key_traffic.specs.Numbers.{after_of, ak_after_of, ak_in_range_of, tek_in_range_of};

// How many numbers there are, and the highest.
pub const KEY_NUMBERS: u8 = 16;

pub const KEY_NUMBER_MAX: u8 = 15;

// The number of an authorization key.
#[repr(C)]
#[derive(Clone, Copy, Debug, PartialEq, Eq)]
pub struct AkNumber(pub u8);

// The number of a traffic key.
#[repr(C)]
#[derive(Clone, Copy, Debug, PartialEq, Eq)]
pub struct TekNumber(pub u8);

// Whether an authorization key may have this number.
pub fn ak_in_range(n: AkNumber) -> bool
    ensures { result ≡ ak_in_range_of n }
{
    n.0 <= KEY_NUMBER_MAX
}

// Whether a traffic key may have this number.
pub fn tek_in_range(n: TekNumber) -> bool
    ensures { result ≡ tek_in_range_of n }
{
    n.0 <= KEY_NUMBER_MAX
}

// The number of the generation `k` after the one numbered `n`.
pub fn tek_after(n: TekNumber, k: u8) -> TekNumber
    ensures { result ≡ after_of n k }
{
    TekNumber((n.0 % KEY_NUMBERS + k % KEY_NUMBERS) % KEY_NUMBERS)
}

// The number of the authorization key `k` after the one numbered `n`.
pub fn ak_after(n: AkNumber, k: u8) -> AkNumber
    ensures { result ≡ ak_after_of n k }
{
    AkNumber((n.0 % KEY_NUMBERS + k % KEY_NUMBERS) % KEY_NUMBERS)
}
