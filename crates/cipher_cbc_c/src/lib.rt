// The frame cipher alone for C, which the benchmark measures: no part of the header. `cipher_cbc` has the calls.

#![tactic(auto)]

ghost use Rattle.std.specs.Prelude.{◌≡◌};
ghost use Rattle.cipher_cbc.specs.Cbc.{seal_aes, open_aes};
ghost use Rattle.cipher_cbc.specs.Calls.{refusal, written};

use cipher_cbc::exported;

// Seals a frame, or says why not and writes nothing.
#[unsafe(no_mangle)]
pub extern "C" fn cipher_cbc_seal(key: &[u8], vector: &[u8], frame: &[u8], out: &mut [u8]) -> u8
    ensures value { result ≡ refusal key.now vector.now frame.now out.old }
    ensures out_after { out.new ≡ written result seal_aes key.now vector.now frame.now out.old }
{
    exported::cipher_cbc_seal(key, vector, frame, out)
}

// Opens a frame, or says why not and writes nothing.
#[unsafe(no_mangle)]
pub extern "C" fn cipher_cbc_open(key: &[u8], vector: &[u8], frame: &[u8], out: &mut [u8]) -> u8
    ensures value { result ≡ refusal key.now vector.now frame.now out.old }
    ensures out_after { out.new ≡ written result open_aes key.now vector.now frame.now out.old }
{
    exported::cipher_cbc_open(key, vector, frame, out)
}
