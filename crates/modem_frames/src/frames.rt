// Sealing and opening a frame at the modem. Both ask their questions in document 01's order and have no `requires`.
ghost use Rattle.std.specs.Prelude.{◌≡◌, true, ◌≤◌, length, eqb};
ghost use Rattle.questions.specs.Answer.{Refused};
ghost use Rattle.questions.specs.Refusal.{number_of};
ghost use Rattle.key_traffic.specs.Octets.{overlay};
ghost use Rattle.key_traffic.specs.Sealing.{SealGives};
ghost use Rattle.modem_receive.specs.Receive.{is_known_of};
ghost use Rattle.modem_limits.specs.Limits.{modem_fits_of};
ghost use Rattle.modem_frames.specs.Frames.{seal_of, missed, open_of, machine_out, frame_fits_of, seal_asked_of, open_asked_of};
ghost use Rattle.modem_frames.specs.FrameCalled.{not_sealed_of, opened_call_of, open_called_of, known_machine, OpenGives};

use crate::rules::{OpenedCall, can_open, can_seal, counted, pair_opening};
use key_traffic::frame::DOWN;
use key_traffic::numbers::{TekNumber, tek_in_range};
use key_traffic::octets::KEY_OCTETS;
use key_traffic::sealing::{SealedCall, put_key, put_opened};
use key_traffic::suites::width;
use message_digest::digest::message_key_fits;
use message_rules::codes::SENT_OCTETS;
use modem_calls::messages::put_out;
use modem_limits::limits::modem_fits;
use modem_steps::slots::{NO_SLOT, slot_of_said};
use modem_steps::state::{Modem, no_tek, start};
use modem_tek::tek::Tek;
use modem_transitions::states::TEK_EVENT_INVALID;
use questions::limits::{ADDRESS_BOUND, SAID_MAX};
use questions::refusal::{Answer, DONE, NO_KEY_FOR_FRAME, Refusal, ask};

// The machine of a SAID; one that holds nothing where the SAID is not known.
#[tactic(auto, unfolding(crate::specs::FrameCalled::known_machine))]
pub fn machine_of(m: Modem, said: u16) -> Tek
    ensures { result ≡ known_machine m said }
{
    let i = slot_of_said(m, said);
    if i < NO_SLOT { m.teks[i] } else { no_tek() }
}

pub fn is_known(m: Modem, said: u16) -> bool
    ensures { result ≡ is_known_of m said }
{
    slot_of_said(m, said) < NO_SLOT
}

// Question 1 of an opening, of keys or of octets.
pub fn frame_fits(m: Modem, direction: u8, address: u64, said: u16, number: TekNumber) -> bool
    ensures { result ≡ frame_fits_of m direction address said number }
{
    modem_fits(m)
        & (direction == DOWN)
        & (address < ADDRESS_BOUND)
        & (said <= SAID_MAX)
        & tek_in_range(number)
}

// All questions of `seal`; `t` is the SAID's machine, and the last two are the lengths of the lent slices.
#[tactic(auto, unfolding(crate::specs::Frames::seal_asked_of))]
fn seal_answer(m: Modem, said: u16, t: Tek, tek: usize, vector: usize) -> Answer
    ensures { result ≡ seal_asked_of m said t tek vector }
{
    ask(modem_fits(m) & (said <= SAID_MAX), Refusal::OutOfLimits)?;
    ask(
        (KEY_OCTETS <= tek) & (KEY_OCTETS <= vector),
        Refusal::WrongLength,
    )?;
    ask(is_known(m, said), Refusal::UnknownSaid)?;
    ask(can_seal(m.clock, t.pair), Refusal::NoKeyToSeal)
}

// All questions of `open`; `keys` says whether the message key has its length.
#[tactic(auto, unfolding(crate::specs::Frames::open_asked_of))]
fn open_answer(
    m: Modem,
    direction: u8,
    address: u64,
    said: u16,
    number: TekNumber,
    t: Tek,
    keys: bool,
    tek: usize,
    vector: usize,
    lent: usize,
) -> Answer
    ensures { result ≡ open_asked_of m direction address said number t keys tek vector lent }
{
    ask(
        frame_fits(m, direction, address, said, number),
        Refusal::OutOfLimits,
    )?;
    ask(
        keys & (KEY_OCTETS <= tek) & (KEY_OCTETS <= vector) & (SENT_OCTETS <= lent),
        Refusal::WrongLength,
    )?;
    ask(
        (address == m.address) & is_known(m, said),
        Refusal::UnknownSaid,
    )?;
    ask(can_open(m.clock, number, t.pair), Refusal::NoKeyForFrame)
}

// The octets of the key of a machine that opens a frame, where one does; how many of each is handed back.
fn put_machine_out(
    t: Tek,
    number: TekNumber,
    clock: u64,
    tek: &mut [u8],
    vector: &mut [u8],
) -> usize
    requires { (16 ≤ length tek.old) × (16 ≤ length vector.old) }
    ensures { (result ≡ length (machine_out clock number t).tek)
        × ((tek.new ≡ overlay tek.old (machine_out clock number t).tek)
        × (vector.new ≡ overlay vector.old (machine_out clock number t).vector)) }
{
    let by = pair_opening(clock, number, t.pair);
    put_opened(by, width(t.suite), t.pair.older, t.pair.newer, tek, vector)
}

// What a sealing hands back that is refused.
pub fn not_sealed(no: Refusal) -> SealedCall
    ensures { result ≡ not_sealed_of no }
{
    SealedCall {
        answer: Err(no),
        number: TekNumber(0),
        width: 0,
    }
}

pub fn opened_call(answer: Answer, modem: Modem, width: usize, count: usize) -> OpenedCall
    ensures { result ≡ opened_call_of answer modem width count }
{
    OpenedCall {
        answer,
        modem,
        width,
        count,
    }
}

// Refused with 13: the SAID's machine takes event 5, and what it sends is written.
pub fn missing(m: Modem, said: u16, a: Answer, write_key: &[u8], out: &mut [u8]) -> OpenedCall
    requires { (modem_fits_of m ≡ true) × ((is_known_of m said ≡ true) × ((length write_key.now ≡ 20) × (216 ≤ length out.old))) }
    ensures { (result ≡ open_called_of (missed true a m said write_key.now))
        × (out.new ≡ overlay out.old (missed true a m said write_key.now).sent) }
{
    let w = start(m).deliver(slot_of_said(m, said), TEK_EVENT_INVALID);
    let n = put_out(w.out, write_key, out);
    opened_call(a, counted(NO_KEY_FOR_FRAME, w.modem), 0, n)
}

// An opening that is refused with any number.
pub fn not_opened(m: Modem, said: u16, no: Refusal, write_key: &[u8], out: &mut [u8]) -> OpenedCall
    requires { number_of no ≡ 13 → (modem_fits_of m ≡ true) × ((is_known_of m said ≡ true) × ((length write_key.now ≡ 20) × (216 ≤ length out.old))) }
    ensures { (result ≡ open_called_of (missed (eqb (number_of no) 13) (Refused no) m said write_key.now))
        × (out.new ≡ overlay out.old (missed (eqb (number_of no) 13) (Refused no) m said write_key.now).sent) }
{
    match u8::from(no) {
        NO_KEY_FOR_FRAME => missing(m, said, Err(no), write_key, out),
        n => opened_call(Err(no), counted(n, m), 0, 0),
    }
}

// The newer key of a SAID, to seal a frame with.
pub fn seal(m: Modem, said: u16, tek: &mut [u8], vector: &mut [u8]) -> SealedCall
    ensures { SealGives (seal_of m said (length tek.old) (length vector.old))
        tek.old vector.old result tek.new vector.new }
{
    let t = machine_of(m, said);
    match seal_answer(m, said, t, tek.len(), vector.len()) {
        Ok(()) => SealedCall {
            answer: Ok(()),
            number: t.pair.newer.number,
            width: put_key(t.pair.newer, width(t.suite), tek, vector),
        },
        Err(no) => not_sealed(no),
    }
}

// The key that opens a frame, where one held does; what 13 sends has its digests under `write_key`.
pub fn open(
    m: Modem,
    direction: u8,
    address: u64,
    said: u16,
    number: TekNumber,
    write_key: &[u8],
    tek: &mut [u8],
    vector: &mut [u8],
    out: &mut [u8],
) -> OpenedCall
    ensures { OpenGives (open_of m direction address said number write_key.now (length tek.old) (length vector.old) (length out.old))
        tek.old vector.old out.old result tek.new vector.new out.new }
{
    let t = machine_of(m, said);
    let keys = message_key_fits(write_key);
    match open_answer(
        m,
        direction,
        address,
        said,
        number,
        t,
        keys,
        tek.len(),
        vector.len(),
        out.len(),
    ) {
        Ok(()) => {
            let w = put_machine_out(t, number, m.clock, tek, vector);
            opened_call(Ok(()), counted(DONE, m), w, 0)
        }
        Err(no) => not_opened(m, said, no, write_key, out),
    }
}
