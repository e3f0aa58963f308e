// HMAC-SHA-1 of a message, and of a part of a slice.
ghost use Rattle.std.specs.Prelude.{◌≡◌, ◌-◌, ◌≤◌, length, take, drop};
ghost use Rattle.digest_hmac.specs.Hmac as spec;

use crate::keys::{INNER_PAD, OUTER_PAD, keyed_value};
use digest_sha1::message::{finish, sha1};
use digest_sha1::sizes::{BLOCK_OCTETS, DIGEST_OCTETS};
use digest_sha1::value::octets;

// What the outer hash is over: the key's block and the inner digest.
const OUTER_OCTETS: usize = BLOCK_OCTETS + DIGEST_OCTETS;

// The inner hash, over the key's block and the message (RFC 2104 section 2, steps 3 and 4).
fn inner(key: &[u8], m: &[u8]) -> [u8; DIGEST_OCTETS]
    requires { length key.now ≤ 64 }
    ensures { result ≡ spec.inner key.now m.now }
{
    octets(finish(keyed_value(key, INNER_PAD), m, BLOCK_OCTETS + m.len()))
}

// The outer hash, over the key's block and the inner digest (section 2, steps 6 and 7).
fn outer(key: &[u8], d: [u8; DIGEST_OCTETS]) -> [u8; DIGEST_OCTETS]
    requires { length key.now ≤ 64 }
    ensures { result ≡ spec.outer key.now d }
{
    octets(finish(keyed_value(key, OUTER_PAD), &d, OUTER_OCTETS))
}

// HMAC with a key that fits a block.
fn block_hmac(key: &[u8], m: &[u8]) -> [u8; DIGEST_OCTETS]
    requires { length key.now ≤ 64 }
    ensures { result ≡ spec.outer key.now (spec.inner key.now m.now) }
{
    outer(key, inner(key, m))
}

// HMAC-SHA-1 of a message; a key longer than a block is hashed first (section 2).
pub fn hmac(key: &[u8], m: &[u8]) -> [u8; DIGEST_OCTETS]
    ensures { result ≡ spec.hmac key.now m.now }
{
    if key.len() <= BLOCK_OCTETS {
        block_hmac(key, m)
    } else {
        block_hmac(&octets(sha1(key)), m)
    }
}

// HMAC-SHA-1 (section 2) of the octets of `s` from `a` up to `b`.
pub fn hmac_part(key: &[u8], s: &[u8], a: usize, b: usize) -> [u8; DIGEST_OCTETS]
    requires { (a ≤ b) × (b ≤ length s.now) }
    ensures { result ≡ spec.hmac key.now (take (b - a) (drop a s.now)) }
{
    hmac(key, &s[a..b])
}
