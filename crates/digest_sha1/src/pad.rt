// The padding of a message (FIPS 180-4 5.1.1): the mark, zeros, and the length in bits.
ghost use Rattle.std.specs.Prelude.{◌≡◌, ◌*◌, ◌<◌, ◌++◌, length, take};
ghost use Rattle.digest_sha1.specs.Sha1 as spec;

use crate::sizes::{BLOCK_OCTETS, LENGTH_START};

// The octet behind the message: a bit 1 and seven bits 0.
const MARK: u8 = 0x80;

// The octets `s`, the mark and zeros, in one block (5.1.1).
pub fn marked(s: &[u8]) -> [u8; BLOCK_OCTETS]
    requires { length s.now < 64 }
    ensures { result ≡ spec.marked s.now }
{
    let mut block = [0u8; BLOCK_OCTETS];
    block[..s.len()].copy_from_slice(s);
    block[s.len()] = MARK;
    block
}

// A block whose last 8 octets are the length in bits of `n` octets (5.1.1), of which 64 bits are kept.
pub fn with_length(mut block: [u8; BLOCK_OCTETS], n: usize) -> [u8; BLOCK_OCTETS]
    ensures { result ≡ take 56 block ++ spec.octets8 (8 * n) }
{
    block[LENGTH_START..].copy_from_slice(&(n as u64).wrapping_mul(8).to_be_bytes());
    block
}
