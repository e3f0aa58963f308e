// A message from a modem: what is asked, and the answer written.
ghost use Rattle.std.specs.Prelude.{◌≡◌, length};
ghost use Rattle.key_traffic.specs.Octets.{overlay};
ghost use Rattle.message_rules.specs.declared.fields.Receiver.TheVariants.{HeadEnd as AtHeadEnd};
ghost use Rattle.message_rules.specs.Reading.{read_of};
ghost use Rattle.message_digest.specs.Digest.{digest_holds_of};
ghost use Rattle.headend_steps.specs.Receive.{keys_fit_of, record_suits_of, identifier_fits_of, receive_answer_of, answer_octets, Writable, receive_called_of, receive_written_of};

use headend_answers::answers::{key_answer, react};
use headend_limits::limits::{address_fits, head_fits};
use headend_limits::search::{found_suits, records_fit};
use headend_state::entries::{Known, entry_of};
use headend_state::state::{Called, HeadEnd, answered};
use key_association::record::said_fits;
use key_association::search::Found;
use message_digest::digest::{is_digest_right, message_key_fits};
use message_reader::read::read;
use message_rules::codes::{
    ANSWER_OCTETS, AUTH_KEY_OCTETS_MAX, AUTH_KEY_OCTETS_MIN, CODE_AUTHENTICATION_INFORMATION,
    CODE_KEY_REPLY, CODE_KEY_REQUEST, CODE_NONE, UNSOLICITED,
};
use message_rules::fields::{Fields, Reading, Receiver};
use message_writer::write::write;
use questions::limits::TEK_LIFE_MAX;
use questions::refusal::{Answer, Refusal, ask};

// Questions 6 to 9 at the head-end, and the fields.
pub fn read_request(message: &[u8]) -> Reading
    ensures { result ≡ read_of AtHeadEnd message.now }
{
    read(Receiver::HeadEnd, message)
}

// Question 1 of the record that a Key Reply is made from, and of the lives that it carries.
#[tactic(auto, unfolding(crate::specs::Receive::record_suits_of))]
fn record_suits(h: HeadEnd, len: usize, s: Found, k: Known, digest: bool, f: Fields) -> bool
    ensures { result ≡ record_suits_of h len s k digest f }
{
    let answer = key_answer(h.clock, k, s.held, digest, f);
    !((f.code == CODE_KEY_REQUEST) & (answer.code == CODE_KEY_REPLY))
        | (found_suits(h, len, s, k, f.said) & (answer.newer.life <= TEK_LIFE_MAX))
}

// Question 11: Authentication Information has Identifier 0.
#[tactic(auto, unfolding(crate::specs::Receive::identifier_fits_of))]
fn identifier_fits(f: Fields) -> bool
    ensures { result ≡ identifier_fits_of f }
{
    !(f.code == CODE_AUTHENTICATION_INFORMATION) | (f.identifier == UNSOLICITED)
}

// All questions of the call, each fact by itself as `receive_answer_of` takes it. `bad` is the place of the first record out of its limits, `len` the
// number of records lent, `s` what was found for the SAID, `digest` whether the message's digest holds, `keys` whether both message keys have their
// length, `r` the reading, and the last two are the lengths of the AUTH-Key and of the lent slice.
#[tactic(auto, unfolding(crate::specs::Receive::receive_answer_of))]
fn receive_answer(
    h: HeadEnd,
    bad: usize,
    len: usize,
    s: Found,
    address: u64,
    digest: bool,
    keys: bool,
    r: Reading,
    auth: usize,
    lent: usize,
) -> Answer
    ensures { result ≡ receive_answer_of h bad len s address digest keys r auth lent }
{
    ask(
        head_fits(h)
            & records_fit(h, bad, len)
            & address_fits(address)
            & said_fits(r.fields.said)
            & record_suits(h, len, s, entry_of(h, address), digest, r.fields),
        Refusal::OutOfLimits,
    )?;
    ask(
        (ANSWER_OCTETS <= lent)
            & (AUTH_KEY_OCTETS_MIN <= auth)
            & (auth <= AUTH_KEY_OCTETS_MAX)
            & keys
            & (h.used <= len),
        Refusal::WrongLength,
    )?;
    r.answer?;
    ask(identifier_fits(r.fields), Refusal::WrongIdentifier)
}

// Writes an answer, where there is one; how many octets is handed back.
pub fn put_answer(f: Fields, auth: &[u8], write_key: &[u8], out: &mut [u8]) -> usize
    requires { Writable f auth.now write_key.now (length out.old) }
    ensures { (result ≡ length (answer_octets f auth.now write_key.now))
        × (out.new ≡ overlay out.old (answer_octets f auth.now write_key.now)) }
{
    if f.code == CODE_NONE {
        0
    } else {
        write(f, auth, write_key, out).unwrap_or(0)
    }
}

// The call, with what the searches over the records found and what the reader read of the message. The message's digest is asked under `read_key`,
// and the answer's is that of `write_key`.
pub fn receive_called(
    h: HeadEnd,
    bad: usize,
    len: usize,
    s: Found,
    address: u64,
    message: &[u8],
    read_key: &[u8],
    write_key: &[u8],
    r: Reading,
    auth: &[u8],
    out: &mut [u8],
) -> Called
    ensures { (result ≡ receive_called_of h bad len s address (digest_holds_of read_key.now r.digest message.now) (keys_fit_of read_key.now write_key.now)
        r auth.now write_key.now (length out.old))
        × (out.new ≡ overlay out.old (receive_written_of h bad len s address (digest_holds_of read_key.now r.digest message.now) (keys_fit_of read_key.now write_key.now)
        r auth.now write_key.now (length out.old))) }
{
    let digest = is_digest_right(message, r.digest, read_key);
    let keys = message_key_fits(read_key) & message_key_fits(write_key);
    match receive_answer(
        h,
        bad,
        len,
        s,
        address,
        digest,
        keys,
        r,
        auth.len(),
        out.len(),
    ) {
        Ok(()) => {
            let reaction = react(h, entry_of(h, address), s.held, digest, r.fields);
            Called {
                answer: Ok(()),
                state: reaction.state,
                count: put_answer(reaction.answer, auth, write_key, out),
            }
        }
        Err(no) => answered(h, Err(no)),
    }
}
