// The hash value: its five words, the first one, the sum that ends a block, and its octets.
ghost use Rattle.std.specs.Prelude.{◌≡◌};
ghost use Rattle.digest_sha1.specs.Sha1 as spec;

use crate::sizes::DIGEST_OCTETS;
use crate::words::put_word;

// The five words of a hash value, and the five working variables of the rounds (FIPS 180-4 6.1.2).
#[derive(Clone, Copy)]
pub struct Hash {
    pub a: u32,
    pub b: u32,
    pub c: u32,
    pub d: u32,
    pub e: u32,
}

// The hash value before the first block (5.3.1).
pub fn initial() -> Hash
    ensures { result ≡ spec.initial }
{
    Hash {
        a: 0x67452301,
        b: 0xefcdab89,
        c: 0x98badcfe,
        d: 0x10325476,
        e: 0xc3d2e1f0,
    }
}

// The hash value that ends a block: what it was plus the working variables, word by word (6.1.2, step 4).
#[tactic(auto, unfolding(crate::specs::Sha1::added))]
pub fn added(h: Hash, s: Hash) -> Hash
    ensures { result ≡ spec.added h s }
{
    Hash {
        a: h.a.wrapping_add(s.a),
        b: h.b.wrapping_add(s.b),
        c: h.c.wrapping_add(s.c),
        d: h.d.wrapping_add(s.d),
        e: h.e.wrapping_add(s.e),
    }
}

// The digest of a hash value: its words in order, the highest octet of each first (6.1.2, at its end).
pub fn octets(h: Hash) -> [u8; DIGEST_OCTETS]
    ensures { result ≡ spec.octets h }
{
    let mut r = [0u8; DIGEST_OCTETS];
    put_word(&mut r, 0, h.a);
    put_word(&mut r, 4, h.b);
    put_word(&mut r, 8, h.c);
    put_word(&mut r, 12, h.d);
    put_word(&mut r, 16, h.e);
    r
}
