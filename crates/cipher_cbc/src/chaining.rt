// Frames sealed and opened into another slice, with the round keys at hand (NIST 800-38A, 6.2; document 000, 11.1 and I.7).
ghost use Rattle.std.specs.Prelude.{◌≡◌, ◌++◌, ◌+◌, ◌<◌, ◌≤◌, length, take, drop};
ghost use Rattle.cipher_aes.specs.Cipher.{cipher, eq_inv_cipher};
ghost use Rattle.cipher_aes.specs.Words.{state, key_at};
ghost use Rattle.cipher_cbc.specs.Blocks.{seal_blocks_of, residual, blocks_end};
ghost use Rattle.cipher_cbc.specs.Cbc.{seal_frame_of, open_frame_of};

use crate::block::{load, store};
use cipher_aes::decryption::decrypt;
use cipher_aes::encryption::{add_round_key, encrypt};
use cipher_aes::sizes::{BLOCK_OCTETS, ROUND_KEYS};
use cipher_aes::words::State;

// The addresses at the front of a frame are not encrypted (I.7).
pub const CLEAR_OCTETS: usize = 12;

// Copies the addresses.
pub fn copy_clear(frame: &[u8], out: &mut [u8])
    requires in_bounds { 12 ≤ length frame.now }
    requires in_bounds_2 { 12 ≤ length out.old }
    ensures { out.new ≡ take 12 frame.now ++ drop 12 out.old }
{
    out[..CLEAR_OCTETS].copy_from_slice(&frame[..CLEAR_OCTETS]);
}

// Seals the whole blocks from `from` on, the first behind `vector` (800-38A, 6.2), and gives the last that was made, or `vector` where there is none. With the
// residual block of that one behind them they are all the chained blocks. The octets behind them stay.
pub fn seal_blocks(
    keys: &[State; ROUND_KEYS],
    vector: State,
    frame: &[u8],
    from: usize,
    out: &mut [u8],
) -> State
    requires from_in_bounds { from ≤ length frame.now }
    requires frame_in_bounds { length frame.now ≤ length out.old }
    ensures frame_after { take (blocks_end from frame.now) out.new ++ residual (cipher (key_at keys.now)) (state result) (drop (blocks_end from frame.now) frame.now) ≡ take from out.old ++ seal_blocks_of (cipher (key_at keys.now)) (state vector) (drop from frame.now) }
    ensures out_unchanged { drop (blocks_end from frame.now) out.new ≡ drop (blocks_end from frame.now) out.old }
{
    let mut v = vector;
    let mut at = from;
    // one index, since it reads the frame and writes `out`, which may be longer
    while BLOCK_OCTETS <= frame.len() - at {
        let p = load(frame, at);
        let c = encrypt(keys, add_round_key(v, p));
        store(out, at, c);
        v = c;
        at += BLOCK_OCTETS;
    }
    v
}

// Writes the residual block (11.1): the octets from `at` on, each added to that of `v` encrypted once more, the first to the first. A block of zeros sealed
// behind `v` is `v` encrypted, so that the cipher stands once in the library, compiled into its one loop.
pub fn put_residual(keys: &[State; ROUND_KEYS], v: State, frame: &[u8], at: usize, out: &mut [u8])
    requires at_in_bounds { at ≤ length frame.now }
    requires frame_len_bound { length frame.now < at + 16 }
    requires frame_in_bounds { length frame.now ≤ length out.old }
    ensures { out.new ≡ take at out.old ++ residual (cipher (key_at keys.now)) (state v) (drop at frame.now) ++ drop (length frame.now) out.old }
{
    let zeros = [0u8; BLOCK_OCTETS];
    let mut b = [0u8; BLOCK_OCTETS];
    seal_blocks(keys, v, &zeros, 0, &mut b);
    for (j, x) in frame[at..].iter().enumerate() {
        out[at + j] = x ^ b[j];
    }
}

// Seals with the round keys of the key.
pub fn seal_with(keys: &[State; ROUND_KEYS], vector: State, frame: &[u8], out: &mut [u8])
    requires in_bounds { 12 ≤ length frame.now }
    requires frame_in_bounds { length frame.now ≤ length out.old }
    ensures { out.new ≡ seal_frame_of (cipher (key_at keys.now)) (state vector) frame.now ++ drop (length frame.now) out.old }
{
    copy_clear(frame, out);
    let v = seal_blocks(keys, vector, frame, CLEAR_OCTETS, out);
    let at = frame.len() - (frame.len() - CLEAR_OCTETS) % BLOCK_OCTETS;
    if at < frame.len() {
        put_residual(keys, v, frame, at, out);
    }
}

// Opens with the round keys of the key, and the same through InvMixColumns.
pub fn open_with(
    keys: &[State; ROUND_KEYS],
    mixed: &[State; ROUND_KEYS],
    vector: State,
    frame: &[u8],
    out: &mut [u8],
)
    requires in_bounds { 12 ≤ length frame.now }
    requires frame_in_bounds { length frame.now ≤ length out.old }
    ensures { out.new ≡ open_frame_of (cipher (key_at keys.now)) (eq_inv_cipher (key_at keys.now) (key_at mixed.now)) (state vector) frame.now ++ drop (length frame.now) out.old }
{
    copy_clear(frame, out);
    let mut v = vector;
    let mut at: usize = CLEAR_OCTETS;
    // one index, since it reads the frame and writes `out`, which may be longer
    while BLOCK_OCTETS <= frame.len() - at {
        let b = load(frame, at);
        let p = add_round_key(v, decrypt(keys, mixed, b));
        store(out, at, p);
        v = b;
        at += BLOCK_OCTETS;
    }
    if at < frame.len() {
        put_residual(keys, v, frame, at, out);
    }
}
