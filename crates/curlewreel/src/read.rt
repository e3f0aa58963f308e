// The reading of a message for C, as specs/Read.antt says: its fields go to a lent slice, laid out by `c_layout`.
ghost use Rattle.std.specs.Prelude.{length};
ghost use Rattle.curlewreel.specs.Read.{read_call_of, Answers};

use crate::receiver::receiver;
use crate::words::END_MAX;
use c_layout::layout::{FIELDS, put_reading};
use message_digest::digest::{is_digest_right, message_key_fits};
use message_reader::read::read_alone;
use questions::refusal::{DONE, OUT_OF_LIMITS, WRONG_LENGTH};

// Reads `message` at the head-end (`end` is 0) or at the modem (1): its fields, two places and whether its digest holds under `read_key` go to
// the first 118 octets of `fields`, and the answer is 0. Refused with 1, 2, 6 to 9 or 11, and then nothing is written; never with 12, which
// comes after questions of an end's state.
#[unsafe(no_mangle)]
pub extern "C" fn curlewreel_read(end: u8, message: &[u8], read_key: &[u8], fields: &mut [u8]) -> u8
    ensures { Answers (read_call_of «end» message.now read_key.now (length fields.old)) fields.old result fields.new }
{
    if END_MAX < end {
        return OUT_OF_LIMITS;
    }
    if !(message_key_fits(read_key) & (FIELDS <= fields.len())) {
        return WRONG_LENGTH;
    }
    let r = read_alone(receiver(end), message);
    match r.answer {
        Ok(()) => {
            let holds = is_digest_right(message, r.digest, read_key);
            put_reading(fields, r, holds);
            DONE
        }
        Err(no) => u8::from(no),
    }
}
