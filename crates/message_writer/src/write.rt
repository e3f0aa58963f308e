// The call: question 1 of the fields, question 2 of the AUTH-Key, of the message key and of the lent slice, then the message with its digest.
ghost use Rattle.std.specs.Prelude.{◌≡◌, length};
ghost use Rattle.key_traffic.specs.Octets.{overlay};
ghost use Rattle.message_digest.specs.Written.{write_of, written_of, as_counted};

use crate::limits::{auth_key_fits, fields_fit};
use crate::whole::put_message;
use message_digest::digest::message_key_fits;
use message_parts::lengths::body_len;
use message_rules::codes::HEAD_OCTETS;
use message_rules::fields::Fields;
use questions::refusal::{Refusal, ask};

// Writes the message of the fields at the front of `out`, with the digest that `key` gives where the code carries one. `auth` is the AUTH-Key's
// octets, which an Authorization Reply carries. How many octets were written is handed back; where it refuses, nothing is written.
pub fn write(f: Fields, auth: &[u8], key: &[u8], out: &mut [u8]) -> Result<usize, Refusal>
    ensures { (result ≡ as_counted (write_of f auth.now key.now (length out.old)))
        × (out.new ≡ overlay out.old (written_of f auth.now key.now (length out.old))) }
{
    ask(fields_fit(f), Refusal::OutOfLimits)?;
    ask(auth_key_fits(f, auth.len()), Refusal::WrongLength)?;
    ask(message_key_fits(key), Refusal::WrongLength)?;
    // Worked out ahead for question 2 alone: Length comes from what is counted while writing.
    let whole = HEAD_OCTETS + body_len(f, auth);
    ask(whole <= out.len(), Refusal::WrongLength)?;
    Ok(put_message(f, auth, key, out))
}
