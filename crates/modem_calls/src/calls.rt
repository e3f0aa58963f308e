// The modem's calls: new, established, reauth, clock, receive. Each asks its questions in document 01's order and has no `requires`; a
// refusal changes and writes nothing.
ghost use Rattle.std.specs.Prelude.{◌≡◌, ◌≤◌, length};
ghost use Rattle.std.specs.Result.{MatchResult};
ghost use Rattle.key_traffic.specs.Octets.{overlay};
ghost use Rattle.questions.specs.Answer.{Done, Refused};
ghost use Rattle.modem_receive.specs.Receive.{fields_in};
ghost use Rattle.modem_calls.specs.Messages.{out_octets, OutFits};
ghost use Rattle.modem_calls.specs.Calls.{refused_call, done_call, new_value, first_answer_of, event_of, established_of, reauth_of, clock_answer_of, clock_of, receive_answer_of, receive_of, Gives};

use crate::messages::put_out;
use message_digest::digest::{MESSAGE_KEY_OCTETS, is_digest_right, message_key_fits};
use message_reader::read::read;
use message_rules::codes::SENT_OCTETS;
use message_rules::fields::{Fields, Receiver};
use modem_limits::limits::modem_fits;
use modem_receive::receive::{digest_holds, identifier_fits, received, said_known, widths_fit};
use modem_steps::clock::clocked;
use modem_steps::state::{Called, Modem, Progress, fresh, start};
use modem_transitions::states::{AUTH_EVENT_ESTABLISHED, AUTH_EVENT_REAUTH};
use questions::limits::{ADDRESS_BOUND, CLOCK_MAX, SAID_MAX};
use questions::refusal::{Answer, Refusal, ask};
use questions::settings::{Settings, no_settings, settings_fit};

fn refused(m: Modem, r: Refusal) -> Called
    ensures { result ≡ refused_call r m }
{
    Called {
        answer: Err(r),
        modem: m,
        count: 0,
    }
}

// The modem after its work, with its messages written.
fn done(w: Progress, key: &[u8], out: &mut [u8]) -> Called
    requires { OutFits w.out 6 × (length key.now ≡ 20) × (216 ≤ length out.old) }
    ensures { (result ≡ done_call key.now w) × (out.new ≡ overlay out.old (out_octets key.now w.out)) }
{
    Called {
        answer: Ok(()),
        modem: w.modem,
        count: put_out(w.out, key, out),
    }
}

// A fresh modem at clock 0; where it is refused, one that is all zero.
pub fn new(settings: Settings, address: u64, said: u16) -> Called
    ensures { result ≡ new_value settings address said }
{
    if settings_fit(settings) & (address < ADDRESS_BOUND) & (said <= SAID_MAX) {
        Called {
            answer: Ok(()),
            modem: fresh(settings, address, said),
            count: 0,
        }
    } else {
        refused(fresh(no_settings(), 0, 0), Refusal::OutOfLimits)
    }
}

// Questions 1 and 2 of every call but `new`: `keys` says whether the message keys have their length, `lent` is how many octets there are for messages.
fn first_answer(m: Modem, keys: bool, lent: usize) -> Answer
    ensures { result ≡ first_answer_of m keys lent }
{
    ask(modem_fits(m), Refusal::OutOfLimits)?;
    ask(keys & (SENT_OCTETS <= lent), Refusal::WrongLength)
}

// An event of the authorization machine that comes from the modem's own side.
fn event_call(m: Modem, event: u8, out: &mut [u8]) -> Called
    ensures { Gives (event_of event m (length out.old))
        out.old result out.new }
{
    match first_answer(m, true, out.len()) {
        Ok(()) => done(start(m).plain_event(event), &[0; MESSAGE_KEY_OCTETS], out),
        Err(no) => refused(m, no),
    }
}

// The modem is established.
pub fn established(m: Modem, out: &mut [u8]) -> Called
    ensures { Gives (established_of m (length out.old))
        out.old result out.new }
{
    event_call(m, AUTH_EVENT_ESTABLISHED, out)
}

// The modem is to reauthorize.
pub fn reauth(m: Modem, out: &mut [u8]) -> Called
    ensures { Gives (reauth_of m (length out.old))
        out.old result out.new }
{
    event_call(m, AUTH_EVENT_REAUTH, out)
}

// The questions of the clock call alone, with `lent` octets for messages.
pub fn clock_answer(m: Modem, t: u64, key: &[u8], lent: usize) -> Answer
    ensures { result ≡ clock_answer_of m t key.now lent }
{
    first_answer(m, message_key_fits(key), lent)?;
    ask((m.clock <= t) & (t <= CLOCK_MAX), Refusal::ClockOutOfOrder)
}

// The clock goes to `t`; what is sent has its digests under `write_key`.
pub fn clock(m: Modem, t: u64, write_key: &[u8], out: &mut [u8]) -> Called
    ensures { Gives (clock_of m t write_key.now (length out.old))
        out.old result out.new }
{
    match clock_answer(m, t, write_key, out.len()) {
        Ok(()) => done(clocked(m, t), write_key, out),
        Err(no) => refused(m, no),
    }
}

// The questions of `receive`, and the fields of a message of which all are met.
fn asked_fields(
    m: Modem,
    message: &[u8],
    read_key: &[u8],
    write_key: &[u8],
    lent: usize,
) -> Result<Fields, Refusal>
    ensures { MatchResult result
        (λ f. (receive_answer_of m message.now read_key.now write_key.now lent ≡ Done) × (f ≡ fields_in message.now))
        (λ no. receive_answer_of m message.now read_key.now write_key.now lent ≡ Refused no) }
{
    let keys = message_key_fits(read_key) & message_key_fits(write_key);
    first_answer(m, keys, lent)?;
    let reading = read(Receiver::Modem, message);
    reading.answer?;
    let f = reading.fields;
    ask(widths_fit(m, f), Refusal::WrongAttributes)?;
    ask(said_known(m, f), Refusal::UnknownSaid)?;
    ask(identifier_fits(m, f), Refusal::WrongIdentifier)?;
    let holds = is_digest_right(message, reading.digest, read_key);
    ask(digest_holds(holds, f), Refusal::DigestFails)?;
    Ok(f)
}

// A message comes; its digest is asked under `read_key`, and what is sent has its digests under `write_key`.
pub fn receive(
    m: Modem,
    message: &[u8],
    read_key: &[u8],
    write_key: &[u8],
    out: &mut [u8],
) -> Called
    ensures { Gives (receive_of m message.now read_key.now write_key.now (length out.old))
        out.old result out.new }
{
    match asked_fields(m, message, read_key, write_key, out.len()) {
        Ok(f) => done(received(m, f), write_key, out),
        Err(no) => refused(m, no),
    }
}
