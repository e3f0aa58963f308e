// The reading of a message: questions 6 to 9 in their order, then the fields (document 01, Messages); and the reader by itself.
ghost use Rattle.std.specs.Prelude.{◌≡◌, ◌≤◌};
ghost use Rattle.message_rules.specs.declared.fields.Receiver.TheVariants.{HeadEnd, Modem};
ghost use Rattle.message_rules.specs.Messages.{length_of, is_whole, receives, identifier_allowed};
ghost use Rattle.message_rules.specs.Reading.{read_of, reader_of};
ghost use Rattle.message_reader.specs.Taken.{complete_in, taken_from, refused_reading, as_asked, handed_back};

use key_traffic::numbers::AkNumber;
use message_attributes::octets::{be16_of, be32_of, octet, part};
use message_compounds::compound::{Compounds, KEY_REPLY_PARAMS, compounds_in};
use message_holders::pass::{Body, pass_body};
use message_holders::slots::{
    LAST_DIGEST, ONCE, SLOT_AUTH_KEY, SLOT_DIGEST, SLOT_ERROR, SLOT_KEY_LIFETIME, SLOT_KEY_NUMBER,
    SLOT_SAID,
};
use message_rules::codes::{
    CODE_AUTHENTICATION_INFORMATION, CODE_AUTHORIZATION_INVALID, CODE_AUTHORIZATION_REJECT,
    CODE_AUTHORIZATION_REPLY, CODE_AUTHORIZATION_REQUEST, CODE_KEY_REJECT, CODE_KEY_REPLY,
    CODE_KEY_REQUEST, CODE_NONE, CODE_TEK_INVALID, HEAD_OCTETS, LENGTH_MAX, UNSOLICITED,
};
use message_rules::fields::{Fields, Place, Reading, Receiver, no_descriptors, no_params};
use questions::limits::{SAIDS_MAX, SAIDS_MIN};
use questions::refusal::{Refusal, ask};

// Where code, Identifier and the two octets of Length stand in a message.
const CODE_AT: usize = 0;

const IDENTIFIER_AT: usize = 1;

const LENGTH_HIGH_AT: usize = 2;

const LENGTH_LOW_AT: usize = 3;

fn length_of(s: &[u8]) -> usize
    ensures { (result ≡ length_of s.now) × (result ≤ 65535) }
{
    usize::from(u16::from_be_bytes([octet(s, LENGTH_HIGH_AT), octet(s, LENGTH_LOW_AT)]))
}

// Question 6: the head is there, Length is at most LENGTH_MAX, and as many octets follow.
fn is_whole(s: &[u8]) -> bool
    ensures { result ≡ is_whole s.now }
{
    let n = length_of(s);
    (HEAD_OCTETS <= s.len()) & (n <= LENGTH_MAX) & (HEAD_OCTETS + n <= s.len())
}

// Question 7, by the code.
fn head_end_receives(c: u8) -> bool
    ensures { result ≡ receives HeadEnd c }
{
    matches!(
        c,
        CODE_AUTHORIZATION_REQUEST | CODE_KEY_REQUEST | CODE_AUTHENTICATION_INFORMATION
    )
}

fn modem_receives(c: u8) -> bool
    ensures { result ≡ receives Modem c }
{
    matches!(
        c,
        CODE_AUTHORIZATION_REPLY..=CODE_AUTHORIZATION_REJECT | CODE_KEY_REPLY..=CODE_TEK_INVALID
    )
}

fn is_received(e: Receiver, c: u8) -> bool
    ensures { result ≡ receives e c }
{
    match e {
        Receiver::HeadEnd => head_end_receives(c),
        Receiver::Modem => modem_receives(c),
    }
}

// Question 9 of a body, by the code: its required attributes are there as often as required, and the digest is the last of all.
fn is_complete(c: u8, b: Body) -> bool
    ensures { result ≡ complete_in c b }
{
    let slots = b.slots;
    let number = slots[SLOT_KEY_NUMBER].n == ONCE;
    let said = slots[SLOT_SAID].n == ONCE;
    let life = slots[SLOT_KEY_LIFETIME].n == ONCE;
    let error = slots[SLOT_ERROR].n == ONCE;
    let key = slots[SLOT_AUTH_KEY].n == ONCE;
    let digest = (slots[SLOT_DIGEST].n == ONCE) & (b.last == LAST_DIGEST);
    match c {
        CODE_AUTHORIZATION_REQUEST => said,
        CODE_AUTHORIZATION_REPLY => key
            & life
            & number
            & (SAIDS_MIN <= b.count)
            & (b.count <= SAIDS_MAX),
        CODE_AUTHORIZATION_REJECT | CODE_AUTHORIZATION_INVALID => error,
        CODE_KEY_REQUEST => number & said & digest,
        CODE_KEY_REPLY => number & said & digest & (b.count == KEY_REPLY_PARAMS),
        CODE_KEY_REJECT | CODE_TEK_INVALID => number & said & error & digest,
        _ => true,
    }
}

fn refused(r: Refusal) -> Reading
    ensures { result ≡ refused_reading r }
{
    let fields = Fields {
        code: CODE_NONE,
        identifier: 0,
        ak: AkNumber(0),
        said: 0,
        life: 0,
        error: 0,
        count: 0,
        descriptors: no_descriptors(),
        older: no_params(),
        newer: no_params(),
    };
    let nowhere = Place { start: 0, len: 0 };
    Reading {
        answer: Err(r),
        fields,
        key: nowhere,
        digest: nowhere,
    }
}

// The fields of message m, from what the passes kept.
fn taken(m: &[u8], b: Body, k: Compounds) -> Reading
    ensures { result ≡ taken_from m.now b k }
{
    let slots = b.slots;
    let number = slots[SLOT_KEY_NUMBER];
    let said = slots[SLOT_SAID];
    let life = slots[SLOT_KEY_LIFETIME];
    let error = slots[SLOT_ERROR];
    let key = slots[SLOT_AUTH_KEY];
    let digest = slots[SLOT_DIGEST];
    let descriptors = k.descriptors;
    let fields = Fields {
        code: octet(m, CODE_AT),
        identifier: octet(m, IDENTIFIER_AT),
        ak: AkNumber(octet(part(m, number.start, number.len), 0)),
        said: be16_of(part(m, said.start, said.len)),
        life: be32_of(part(m, life.start, life.len)),
        error: octet(part(m, error.start, error.len), 0),
        count: k.count,
        descriptors,
        older: k.older,
        newer: k.newer,
    };
    Reading {
        answer: Ok(()),
        fields,
        key: Place {
            start: key.start,
            len: key.len,
        },
        digest: Place {
            start: digest.start,
            len: digest.len,
        },
    }
}

// Questions 6 to 9, and the reading of a message that meets them.
fn asked(e: Receiver, s: &[u8]) -> Result<Reading, Refusal>
    ensures { result ≡ as_asked (read_of e s.now) }
{
    ask(is_whole(s), Refusal::CutMessage)?;
    let c = octet(s, CODE_AT);
    ask(is_received(e, c), Refusal::CodeNotReceived)?;
    let m = &s[..HEAD_OCTETS + length_of(s)];
    let b = pass_body(m, c);
    ask(b.sound, Refusal::BadAttribute)?;
    let k = compounds_in(c, m, b.count, b.compounds);
    ask(k.sound, Refusal::BadAttribute)?;
    ask(is_complete(c, b) & k.complete, Refusal::WrongAttributes)?;
    Ok(taken(m, b, k))
}

// The same for the reader by itself, which asks the half of 11 after them.
fn asked_alone(e: Receiver, s: &[u8]) -> Result<Reading, Refusal>
    ensures { result ≡ as_asked (reader_of e s.now) }
{
    let r = asked(e, s)?;
    ask(
        is_identifier_allowed(r.fields.code, r.fields.identifier),
        Refusal::WrongIdentifier,
    )?;
    Ok(r)
}

// What is handed back: where a question is not met, its refusal alone.
fn handed(asked: Result<Reading, Refusal>) -> Reading
    ensures { result ≡ handed_back asked }
{
    match asked {
        Ok(r) => r,
        Err(no) => refused(no),
    }
}

// The reading inside an end, which asks 10 to 12 after it.
pub fn read(e: Receiver, s: &[u8]) -> Reading
    ensures { result ≡ read_of e s.now }
{
    handed(asked(e, s))
}

// The half of question 11 that needs no end's state.
fn is_identifier_allowed(c: u8, identifier: u8) -> bool
    ensures { result ≡ identifier_allowed c identifier }
{
    !((c == CODE_TEK_INVALID) | (c == CODE_AUTHENTICATION_INFORMATION))
        | (identifier == UNSOLICITED)
}

// The reader by itself: questions 6 to 9, then that half of 11.
pub fn read_alone(e: Receiver, s: &[u8]) -> Reading
    ensures { result ≡ reader_of e s.now }
{
    handed(asked_alone(e, s))
}
