// For the benchmark and the vectors; no part of the header. Calls without `requires`: they ask for the lengths first.
ghost use Rattle.std.specs.Prelude.{◌≡◌};
ghost use Rattle.cipher_cbc.specs.Cbc.{seal_aes, open_aes};
ghost use Rattle.cipher_cbc.specs.Calls.{refusal_of, refusal, written};

use crate::chaining::CLEAR_OCTETS;
use crate::frame::{open_frame, seal_frame};
use cipher_aes::sizes::BLOCK_OCTETS;

// The frame was written.
pub const DONE: u8 = 0;

// The key or the vector has not 16 octets.
pub const NOT_A_BLOCK: u8 = 1;

// The output is shorter than the frame.
pub const OUTPUT_TOO_SHORT: u8 = 2;

// The frame has fewer octets than its addresses.
pub const FRAME_TOO_SHORT: u8 = 15;

// The answer to four lengths: C's number, which both calls hand out as it is.
fn refused(key: usize, vector: usize, frame: usize, out: usize) -> u8
    ensures { result ≡ refusal_of key vector frame out }
{
    if key != BLOCK_OCTETS {
        NOT_A_BLOCK
    } else if vector != BLOCK_OCTETS {
        NOT_A_BLOCK
    } else if out < frame {
        OUTPUT_TOO_SHORT
    } else if frame < CLEAR_OCTETS {
        FRAME_TOO_SHORT
    } else {
        DONE
    }
}

// Seals a frame, or says why not and writes nothing.
#[unsafe(no_mangle)]
pub extern "C" fn cipher_cbc_seal(key: &[u8], vector: &[u8], frame: &[u8], out: &mut [u8]) -> u8
    ensures value { result ≡ refusal key.now vector.now frame.now out.old }
    ensures out_after { out.new ≡ written result seal_aes key.now vector.now frame.now out.old }
{
    let no = refused(key.len(), vector.len(), frame.len(), out.len());
    if no == DONE {
        seal_frame(key, vector, frame, out);
    }
    no
}

// Opens a frame, or says why not and writes nothing.
#[unsafe(no_mangle)]
pub extern "C" fn cipher_cbc_open(key: &[u8], vector: &[u8], frame: &[u8], out: &mut [u8]) -> u8
    ensures value { result ≡ refusal key.now vector.now frame.now out.old }
    ensures out_after { out.new ≡ written result open_aes key.now vector.now frame.now out.old }
{
    let no = refused(key.len(), vector.len(), frame.len(), out.len());
    if no == DONE {
        open_frame(key, vector, frame, out);
    }
    no
}
