// The digest of a message: whether it holds, and its octets stored.
ghost use Rattle.std.specs.Prelude.{◌≡◌, true, ◌≤◌, length};
ghost use Rattle.message_rules.specs.Ranges.{is_required_of};
ghost use Rattle.message_digest.specs.Digest.{covered_up_to_of, digest_holds_of, digest_filled, message_key_fits_of};

use digest_hmac::digest::{digest_holds, fill_digest};
use digest_sha1::sizes::DIGEST_OCTETS;
use message_rules::codes::{ATTRIBUTE_HEAD_OCTETS, TYPE_DIGEST};
use message_rules::fields::Place;
use message_rules::required::is_required;

// Octets of a message key.
pub const MESSAGE_KEY_OCTETS: usize = 20;

// Octets of a digest attribute.
const DIGEST_ATTRIBUTE_OCTETS: usize = ATTRIBUTE_HEAD_OCTETS + DIGEST_OCTETS;

// Question 2 of a message key.
pub fn message_key_fits(key: &[u8]) -> bool
    ensures { result ≡ message_key_fits_of key.now }
{
    key.len() == MESSAGE_KEY_OCTETS
}

// How many octets the sum is over, with the digest's value at a place.
fn covered_up_to(p: Place) -> usize
    ensures { result ≡ covered_up_to_of p }
{
    p.start.saturating_sub(ATTRIBUTE_HEAD_OCTETS)
}

// Whether the digest at its place in a message is the one that the key gives.
pub fn is_digest_right(message: &[u8], p: Place, key: &[u8]) -> bool
    ensures { result ≡ digest_holds_of key.now p message.now }
{
    p.len == DIGEST_OCTETS
        && DIGEST_OCTETS <= message.len()
        && p.start <= message.len() - DIGEST_OCTETS
        && digest_holds(message, covered_up_to(p), key, p.start)
}

// Works out the digest of the message of `n` octets at the front of `out` and stores it in its place, where the code carries one.
pub fn store_digest(code: u8, key: &[u8], n: usize, out: &mut [u8])
    requires { (is_required_of code 11 ≡ true → 23 ≤ n) × (n ≤ length out.old) }
    ensures { out.new ≡ digest_filled code key.now n out.old }
{
    if is_required(code, TYPE_DIGEST) {
        fill_digest(out, n - DIGEST_ATTRIBUTE_OCTETS, key, n - DIGEST_OCTETS);
    }
}
