// The writing of a message for C, as specs/Write.antt says: its fields come in octets, laid out by `c_layout`.
ghost use Rattle.std.specs.Prelude.{length};
ghost use Rattle.curlewreel.specs.Write.{write_call_of, Writes};

use c_layout::layout::{FIELDS_WRITTEN, fields_from};
use message_writer::limits::fields_fit;
use message_writer::write::write;
use questions::refusal::{DONE, OUT_OF_LIMITS, WRONG_LENGTH};

// The answer, and how many octets were written.
#[repr(C)]
#[derive(Clone, Copy)]
pub struct Written {
    pub number: u8,
    pub count: usize,
}

// Writes the message of the fields in the first 109 octets of `fields` at the front of `out`, with the digest that `write_key` gives where its code
// carries one, and answers 0 and how many octets it wrote. `auth_key` is the AUTH-Key's octets, which an Authorization Reply carries. Refused
// with 1 or 2, and then nothing is written.
#[unsafe(no_mangle)]
pub extern "C" fn curlewreel_write(
    fields: &[u8],
    auth_key: &[u8],
    write_key: &[u8],
    out: &mut [u8],
) -> Written
    ensures { Writes (write_call_of fields.now auth_key.now write_key.now (length out.old)) out.old result out.new }
{
    let f = fields_from(fields);
    if !fields_fit(f) {
        return Written {
            number: OUT_OF_LIMITS,
            count: 0,
        };
    }
    if fields.len() < FIELDS_WRITTEN {
        return Written {
            number: WRONG_LENGTH,
            count: 0,
        };
    }
    match write(f, auth_key, write_key, out) {
        Ok(count) => Written {
            number: DONE,
            count,
        },
        Err(no) => Written {
            number: u8::from(no),
            count: 0,
        },
    }
}
