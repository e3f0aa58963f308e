// Decimal numbers: the digits at a place of a slice as a number, and a number's digits written at a place.
ghost use Rattle.std.specs.Prelude.{◌≡◌, true, ◌+◌, ◌≤◌, length};
ghost use Rattle.std.proofs.lemmas.List.Edits.{sets};
ghost use Rattle.text.specs.Decimal.{is_digit_of, number_at, decimal_of, append_to, number_from_of};

use crate::characters::DIGIT_0;

// Digits are in base ten.
const BASE: u64 = 10;

// A number has 1 to 20 digits.
const DIGITS_MIN: usize = 1;

const DIGITS_MAX: usize = 20;

// The digits at a place: `next` is the place after them. Where no number below 2^64 stands there in 1 to 20 digits, there is
// no `value`.
#[derive(Clone, Copy)]
pub struct Number {
    pub value: Option<u64>,
    pub next: usize,
}

fn is_digit(b: u8) -> bool
    ensures { result ≡ is_digit_of b }
{
    b.is_ascii_digit()
}

// One digit more; there is no number from 2^64 on.
fn appended(p: Option<u64>, b: u8) -> Option<u64>
    requires { is_digit_of b ≡ true }
    ensures { result ≡ append_to p b }
{
    let digit = u64::from(b - DIGIT_0);
    p?.checked_mul(BASE)?.checked_add(digit)
}

// The answer for n digits read, which end at next.
fn number_from(p: Option<u64>, n: usize, next: usize) -> Number
    ensures { result ≡ number_from_of p n next }
{
    let value = if (DIGITS_MIN <= n) & (n <= DIGITS_MAX) {
        p
    } else {
        None
    };
    Number { value, next }
}

// The number at a place. Any place is asked for: past the end there are no digits.
pub fn number_at(s: &[u8], at: usize) -> Number
    ensures { result ≡ number_at s.now at }
{
    let (_, rest) = s.split_at(at.min(s.len()));
    let mut p = Some(0);
    for (i, b) in rest.iter().enumerate() {
        if !is_digit(*b) {
            return number_from(p, i, at + i);
        }
        p = appended(p, *b);
    }
    number_from(p, rest.len(), at + rest.len())
}

// How many digits a number has.
fn width(n: u64) -> usize
    ensures { (result ≡ length (decimal_of n)) × (result ≤ 20) }
{
    let mut left = n;
    let mut k: usize = 1;
    // it divides and counts how often, and goes over nothing
    while BASE <= left {
        left /= BASE;
        k += 1;
    }
    k
}

// Writes n at a place, its last digit first, and answers the place after it.
pub fn put_decimal(out: &mut [u8], at: usize, n: u64) -> usize
    requires { at + 20 ≤ length out.old }
    ensures { (out.new ≡ sets out.old at (decimal_of n)) × ((result ≡ at + length (decimal_of n)) × (result ≤ at + 20)) }
{
    let end = at + width(n);
    let mut i = end;
    let mut left = n;
    // it divides as often as the number asks; the place goes with it, from the last
    while BASE <= left {
        i -= 1;
        out[i] = DIGIT_0 + (left % BASE) as u8;
        left /= BASE;
    }
    out[at] = DIGIT_0 + left as u8;
    end
}
