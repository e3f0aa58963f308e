// A digest of 20 octets at a place of the slice that it covers: compared and stored.
ghost use Rattle.std.specs.Prelude.{◌≡◌, ◌+◌, ◌≤◌, length, take, drop};
ghost use Rattle.std.proofs.lemmas.List.Edits.{sets};
ghost use Rattle.digest_hmac.specs.Hmac as spec;

use crate::hmac::hmac;
use digest_sha1::sizes::DIGEST_OCTETS;

// The bits in which any two octets differed so far, with those of one more pair; zero only where all were equal.
fn differing(so_far: u8, x: u8, y: u8) -> u8
    ensures { spec.Collects so_far x y result }
{
    so_far | x ^ y
}

// Whether the 20 octets from `at` on are `d`. It looks at each of them, whatever they are, so its time says nothing of where they differ.
pub fn same20(d: [u8; DIGEST_OCTETS], s: &[u8], at: usize) -> bool
    requires { at + 20 ≤ length s.now }
    ensures { result ≡ spec.same d (take 20 (drop at s.now)) }
{
    let mut differ = 0;
    for (x, y) in d.iter().zip(&s[at..at + DIGEST_OCTETS]) {
        differ = differing(differ, *x, *y);
    }
    differ == 0
}

// Whether the 20 octets from `at` on are the HMAC (RFC 2104 section 2) of the octets before `upto`.
#[tactic(auto, unfolding(crate::specs::Hmac::holds))]
pub fn digest_holds(message: &[u8], upto: usize, key: &[u8], at: usize) -> bool
    requires { (upto ≤ length message.now) × (at + 20 ≤ length message.now) }
    ensures { result ≡ spec.holds message.now upto key.now at }
{
    let d = hmac(key, &message[..upto]);
    same20(d, message, at)
}

// Stores the 20 octets of a digest from `at` on; the others stay.
pub fn put20(out: &mut [u8], at: usize, d: [u8; DIGEST_OCTETS])
    requires { at + 20 ≤ length out.old }
    ensures { out.new ≡ sets out.old at d }
{
    out[at..at + DIGEST_OCTETS].copy_from_slice(&d);
}

// Stores the HMAC (RFC 2104 section 2) of the octets before `upto` from `at` on.
#[tactic(auto, unfolding(crate::specs::Hmac::filled))]
pub fn fill_digest(message: &mut [u8], upto: usize, key: &[u8], at: usize)
    requires { (upto ≤ length message.old) × (at + 20 ≤ length message.old) }
    ensures { message.new ≡ spec.filled message.old upto key.now at }
{
    let d = hmac(key, &message[..upto]);
    put20(message, at, d)
}
