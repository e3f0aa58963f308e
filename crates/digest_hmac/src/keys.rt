// The key's block, and the hash value after it.
ghost use Rattle.std.specs.Prelude.{◌≡◌, ◌≤◌, length};
ghost use Rattle.digest_sha1.specs.Sha1 as sha;
ghost use Rattle.digest_hmac.specs.Hmac as spec;

use digest_sha1::compress::compress;
use digest_sha1::sizes::BLOCK_OCTETS;
use digest_sha1::value::{Hash, initial};

// The octet that the inner pad repeats (RFC 2104 section 2).
pub const INNER_PAD: u8 = 0x36;

// The octet that the outer pad repeats (section 2).
pub const OUTER_PAD: u8 = 0x5c;

// The key with zeros behind it, one block long, each octet xor `pad` (section 2, steps 1, 2 and 5).
fn key_block(key: &[u8], pad: u8) -> [u8; BLOCK_OCTETS]
    requires { length key.now ≤ 64 }
    ensures { result ≡ spec.key_block_of key.now pad }
{
    let mut block = [0u8; BLOCK_OCTETS];
    block[..key.len()].copy_from_slice(key);
    for x in &mut block {
        *x ^= pad;
    }
    block
}

// The hash value after the key's block, with which both hashes of section 2 begin.
pub fn keyed_value(key: &[u8], pad: u8) -> Hash
    requires { length key.now ≤ 64 }
    ensures { result ≡ sha.compress sha.initial (spec.key_block_of key.now pad) }
{
    compress(initial(), &key_block(key, pad))
}
