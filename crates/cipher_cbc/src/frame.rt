// A frame sealed or opened under a key and a vector of 16 octets each (document 000, 11.1 and I.10).
ghost use Rattle.std.specs.Prelude.{◌≡◌, ◌++◌, ◌≤◌, length, drop};
ghost use Rattle.cipher_cbc.specs.Cbc.{seal_aes, open_aes};

use crate::block::load;
use crate::chaining::{open_with, seal_with};
use cipher_aes::decryption::inverse_schedule;
use cipher_aes::keys::expand;

// Writes the sealed frame to the front of `out`; the octets behind it stay.
pub fn seal_frame(key: &[u8], vector: &[u8], frame: &[u8], out: &mut [u8])
    requires key_len { length key.now ≡ 16 }
    requires vector_len { length vector.now ≡ 16 }
    requires in_bounds { 12 ≤ length frame.now }
    requires frame_in_bounds { length frame.now ≤ length out.old }
    ensures { out.new ≡ seal_aes key.now vector.now frame.now ++ drop (length frame.now) out.old }
{
    let keys = expand(load(key, 0));
    seal_with(&keys, load(vector, 0), frame, out);
}

// Writes the opened frame to the front of `out`; the octets behind it stay.
pub fn open_frame(key: &[u8], vector: &[u8], frame: &[u8], out: &mut [u8])
    requires key_len { length key.now ≡ 16 }
    requires vector_len { length vector.now ≡ 16 }
    requires in_bounds { 12 ≤ length frame.now }
    requires frame_in_bounds { length frame.now ≤ length out.old }
    ensures { out.new ≡ open_aes key.now vector.now frame.now ++ drop (length frame.now) out.old }
{
    let keys = expand(load(key, 0));
    let mixed = inverse_schedule(&keys);
    open_with(&keys, &mixed, load(vector, 0), frame, out);
}
