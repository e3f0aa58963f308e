// The hash of a message: its whole blocks, and the one or two blocks that its padding makes.
ghost use Rattle.std.specs.Prelude.{◌≡◌, ◌%◌, length};
ghost use Rattle.digest_sha1.specs.Sha1 as spec;

use crate::compress::compress;
use crate::pad::{marked, with_length};
use crate::sizes::{BLOCK_OCTETS, LENGTH_START};
use crate::value::{Hash, initial};

// The last one or two blocks of a message of `n` octets, with the octets `s` that no block has yet (FIPS 180-4 5.1.1).
fn last_blocks(h: Hash, s: &[u8], n: usize) -> Hash
    requires { n % 64 ≡ length s.now }
    ensures { result ≡ spec.finish h s.now n }
{
    let b = marked(s);
    if s.len() < LENGTH_START {
        compress(h, &with_length(b, n))
    } else {
        let g = compress(h, &b);
        compress(g, &with_length([0u8; BLOCK_OCTETS], n))
    }
}

// The hash of a message of `n` octets, where `h` is the hash value so far and `m` the octets that are left (6.1.2).
pub fn finish(h: Hash, m: &[u8], n: usize) -> Hash
    requires { n % 64 ≡ length m.now % 64 }
    ensures { result ≡ spec.finish h m.now n }
{
    let blocks = m.chunks_exact(BLOCK_OCTETS);
    let rest = blocks.remainder();
    let mut g = h;
    for block in blocks {
        g = compress(g, block);
    }
    last_blocks(g, rest, n)
}

// The hash of a message of any length (section 6.1).
#[tactic(auto, unfolding(crate::specs::Sha1::sha1))]
pub fn sha1(m: &[u8]) -> Hash
    ensures { result ≡ spec.sha1 m.now }
{
    finish(initial(), m, m.len())
}
