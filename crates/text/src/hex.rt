// Octets as lower-case hexadecimal digits, two for each octet: read from a line, and written.
ghost use Rattle.std.specs.Prelude.{◌≡◌, ◌+◌, ◌*◌, ◌≤◌, ◌<◌, length, take, drop, is_some, unwrap_or};
ghost use Rattle.key_traffic.specs.Put.{Put};
ghost use Rattle.key_traffic.specs.Octets.{overlay};
ghost use Rattle.text.specs.Hex.{is_hex_of, hex_value_of, all_hex_of, octets_value, hex_digit_of, hex_of};

use crate::characters::{DIGIT_0, DIGIT_9};

// The characters of the digits: 0 to 9, and the letters a to f.
const LETTER_A: u8 = 97;

const LETTER_F: u8 = 102;

// Values from ten on are letters: a letter's character is LETTER_OFFSET more than its value.
const LETTER_VALUE_MIN: u8 = 10;

const LETTER_OFFSET: u8 = 87;

// The value of a digit; any other octet has none.
#[tactic(auto, unfolding(crate::specs::Hex::is_hex_of, crate::specs::Hex::hex_value_of))]
fn hex_value(b: u8) -> Option<u8>
    ensures { (is_some result ≡ is_hex_of b) × (unwrap_or result 0 ≡ hex_value_of b) × (unwrap_or result 0 ≤ 15) }
{
    match b {
        DIGIT_0..=DIGIT_9 => Some(b - DIGIT_0),
        LETTER_A..=LETTER_F => Some(b - LETTER_OFFSET),
        _ => None,
    }
}

// Whether a text is nothing but digits.
#[tactic(auto, unfolding(crate::specs::Hex::all_hex_of))]
pub fn all_hex(text: &[u8]) -> bool
    ensures { result ≡ all_hex_of text.now }
{
    text.iter().all(|b| hex_value(*b).is_some())
}

// The octet that two digits say; what is no digit counts as 0.
fn octet(high: u8, low: u8) -> u8
    ensures { result ≡ hex_value_of high * 16 + hex_value_of low }
{
    hex_value(high).unwrap_or(0) * 16 + hex_value(low).unwrap_or(0)
}

// Decodes the digits at a place of the line into the front of `out`.
pub fn put_octets_at(line: &[u8], at: usize, count: usize, out: &mut [u8])
    requires { (at + 2 * count ≤ length line.now) × (count ≤ length out.old) }
    ensures { out.new ≡ overlay out.old (octets_value (take (2 * count) (drop at line.now))) }
{
    let (pairs, _) = line[at..at + 2 * count].as_chunks::<2>();
    for (i, pair) in pairs.iter().enumerate() {
        out[i] = octet(pair[0], pair[1]);
    }
}

#[tactic(auto, unfolding(crate::specs::Hex::hex_digit_of))]
fn hex_digit(n: u8) -> u8
    requires { n < 16 }
    ensures { result ≡ hex_digit_of n }
{
    if n < LETTER_VALUE_MIN {
        DIGIT_0 + n
    } else {
        LETTER_OFFSET + n
    }
}

// Writes octets as digits at a place, and answers the place after them.
pub fn put_hex(out: &mut [u8], at: usize, v: &[u8]) -> usize
    requires { at + 2 * length v.now ≤ length out.old }
    ensures put { Put out.old at (hex_of v.now) result out.new }
    ensures value { result ≡ at + 2 * length v.now }
{
    let mut place = at;
    for x in v {
        out[place] = hex_digit(*x / 16);
        out[place + 1] = hex_digit(*x % 16);
        place += 2;
    }
    place
}
