// An octet, a text and a number, written at a place of a lent slice.
ghost use Rattle.std.specs.Prelude.{◌≡◌, ◌+◌, ◌≤◌, ◌<◌, [], ◌∷◌, length};
ghost use Rattle.key_traffic.specs.Put.{Put};
ghost use Rattle.text.specs.Decimal.{number_text};

use crate::decimal::put_decimal;

// Writes an octet, and answers the place after it.
pub fn put_octet(out: &mut [u8], at: usize, x: u8) -> usize
    requires { at < length out.old }
    ensures put { Put out.old at (x ∷ []) result out.new }
    ensures value { result ≡ at + 1 }
{
    out[at] = x;
    at + 1
}

// Writes a text, and answers the place after it.
pub fn put_text(out: &mut [u8], at: usize, text: &[u8]) -> usize
    requires { at + length text.now ≤ length out.old }
    ensures { Put out.old at text.now result out.new }
{
    let end = at + text.len();
    out[at..end].copy_from_slice(text);
    end
}

// Writes a number and the octet after it, and answers the place after that.
pub fn put_number(out: &mut [u8], at: usize, n: u64, after: u8) -> usize
    requires { at + 21 ≤ length out.old }
    ensures put { Put out.old at (number_text n after) result out.new }
    ensures upper_bound { result ≤ at + 21 }
{
    let end = put_decimal(out, at, n);
    put_octet(out, end, after)
}
