// The functions of SHA-1 on words of 32 bits, and words from octets.
ghost use Rattle.std.specs.Prelude.{◌≡◌, ◌+◌, ◌≤◌, length};
ghost use Rattle.std.proofs.lemmas.List.Edits.{sets};
ghost use Rattle.digest_sha1.specs.Words as words;
ghost use Rattle.digest_sha1.specs.Sha1 as spec;

use crate::sizes::WORD_OCTETS;

// Ch (4.1.1), of rounds 0 to 19.
pub fn ch(x: u32, y: u32, z: u32) -> u32
    ensures { result ≡ words.ch x y z }
{
    x & y ^ !x & z
}

// Parity (4.1.1), of rounds 20 to 39 and 60 to 79.
pub fn parity(x: u32, y: u32, z: u32) -> u32
    ensures { result ≡ words.parity x y z }
{
    x ^ y ^ z
}

// Maj (4.1.1), of rounds 40 to 59.
pub fn maj(x: u32, y: u32, z: u32) -> u32
    ensures { result ≡ words.maj x y z }
{
    x & y ^ x & z ^ y & z
}

// The word whose octets begin at `at`, the highest first (3.1).
pub fn word(m: &[u8], at: usize) -> u32
    requires { at + 4 ≤ length m.now }
    ensures { result ≡ spec.word_at m.now at }
{
    u32::from_be_bytes([m[at], m[at + 1], m[at + 2], m[at + 3]])
}

// Stores the four octets of a word, the highest first, from `at` on (3.1).
pub fn put_word(out: &mut [u8], at: usize, x: u32)
    requires { at + 4 ≤ length out.old }
    ensures { out.new ≡ sets out.old at (spec.octets4 x) }
{
    out[at..at + WORD_OCTETS].copy_from_slice(&x.to_be_bytes());
}
