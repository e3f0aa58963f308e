// Frames at the head-end: sealing one for a modem and opening one from it, with what the search over the records found.
ghost use Rattle.std.specs.Prelude.{◌≡◌, ◌≤◌, length};
ghost use Rattle.questions.specs.Answer.{Refused};
ghost use Rattle.questions.specs.Refusal.{number_of};
ghost use Rattle.key_traffic.specs.Octets.{overlay};
ghost use Rattle.key_traffic.specs.Sealing.{SealGives};
ghost use Rattle.headend_state.specs.Entries.{known_of};
ghost use Rattle.headend_frames.specs.FrameQuestions.{counted_by_of};
ghost use Rattle.headend_frames.specs.Frames.{sealed_with, invalid_octets, sent_on, opened_with};
ghost use Rattle.headend_frames.specs.FrameCalled.{OpenGives};

use crate::rules::{Header, Searched, counted, open_answer, seal_answer};
use headend_answers::fields::error_answer;
use headend_state::authorization::newest;
use headend_state::entries::entry_of;
use headend_state::state::HeadEnd;
use headend_steps::receive::put_answer;
use key_traffic::frame::decide;
use key_traffic::numbers::TekNumber;
use key_traffic::sealing::{SealedCall, put_key, put_opened};
use key_traffic::suites::width;
use message_digest::digest::message_key_fits;
use message_rules::codes::{CODE_TEK_INVALID, ERROR_KEY_NUMBER};
use questions::refusal::{Answer, DONE, Refusal};

// What opening hands back: the answer, the head-end after it, how many octets of TEK and of vector, or of the frame, were written, and how many
// of a TEK Invalid.
#[derive(Clone, Copy)]
pub struct OpenedCall {
    pub answer: Answer,
    pub state: HeadEnd,
    pub width: usize,
    pub count: usize,
}

pub fn opened_call(answer: Answer, state: HeadEnd, width: usize, count: usize) -> OpenedCall
    ensures { result ≡ record { answer = answer; state = state; width = width; count = count } }
{
    OpenedCall {
        answer,
        state,
        width,
        count,
    }
}

// A TEK Invalid to the modem of that address, where one of its authorization keys is active; how many octets is handed back.
pub fn put_invalid(h: HeadEnd, address: u64, said: u16, write_key: &[u8], out: &mut [u8]) -> usize
    requires { (said ≤ 16383) × (length write_key.now ≡ 20) × (40 ≤ length out.old) }
    ensures { (result ≡ length (invalid_octets h (known_of h address) said write_key.now))
        × (out.new ≡ overlay out.old (invalid_octets h (known_of h address) said write_key.now)) }
{
    let keys = entry_of(h, address).entry.keys;
    if keys.newer <= h.clock {
        return 0;
    }
    let fields = error_answer(CODE_TEK_INVALID, 0, newest(keys), said, ERROR_KEY_NUMBER);
    put_answer(fields, &[], write_key, out)
}

// What a sealing hands back that is refused.
pub fn unsealed(no: Refusal) -> SealedCall
    ensures { result ≡ record { answer = Refused no; number = record { 0 = 0 }; width = 0 } }
{
    SealedCall {
        answer: Err(no),
        number: TekNumber(0),
        width: 0,
    }
}

// Sealing, with what the searches over the records found: the older key's octets go to the front of the two slices.
#[tactic(auto, unfolding(crate::specs::Frames::sealed_with))]
pub fn seal_called(
    h: HeadEnd,
    r: Searched,
    address: u64,
    said: u16,
    tek: &mut [u8],
    vector: &mut [u8],
) -> SealedCall
    ensures { SealGives (sealed_with h r.bad r.len r.found address said (length tek.old) (length vector.old))
        tek.old vector.old result tek.new vector.new }
{
    match seal_answer(h, r, address, said, tek.len(), vector.len()) {
        Ok(()) => {
            let record = r.found.held;
            let key = record.older;
            SealedCall {
                answer: Ok(()),
                number: key.number,
                width: put_key(key, width(record.suite), tek, vector),
            }
        }
        Err(no) => unsealed(no),
    }
}

// An opening that is refused: the count of frames, and on 13 a TEK Invalid to the front of the slice.
pub fn unopened(
    no: Refusal,
    h: HeadEnd,
    address: u64,
    said: u16,
    write_key: &[u8],
    invalid: &mut [u8],
) -> OpenedCall
    requires { number_of no ≡ 13 → (said ≤ 16383) × (length write_key.now ≡ 20) × (40 ≤ length invalid.old) }
    ensures { (result ≡ record { answer = Refused no; state = counted_by_of (number_of no) h; width = 0; count = length (sent_on no h address said write_key.now) })
        × (invalid.new ≡ overlay invalid.old (sent_on no h address said write_key.now)) }
{
    let state = counted(u8::from(no), h);
    match no {
        Refusal::NoKeyForFrame => {
            let count = put_invalid(h, address, said, write_key, invalid);
            opened_call(Err(no), state, 0, count)
        }
        _ => opened_call(Err(no), state, 0, 0),
    }
}

// Opening, with what the searches over the records found: the octets of the key that opens the frame go to the front of the first two slices, those of a
// TEK Invalid to the front of the third.
#[tactic(auto, unfolding(crate::specs::Frames::opened_with))]
pub fn open_called(
    h: HeadEnd,
    r: Searched,
    f: Header,
    write_key: &[u8],
    tek: &mut [u8],
    vector: &mut [u8],
    invalid: &mut [u8],
) -> OpenedCall
    ensures { OpenGives (opened_with h r.bad r.len r.found f.direction f.address f.said f.number write_key.now (length tek.old) (length vector.old) (length invalid.old))
        tek.old vector.old invalid.old result tek.new vector.new invalid.new }
{
    let keys = message_key_fits(write_key);
    match open_answer(h, r, f, keys, tek.len(), vector.len(), invalid.len()) {
        Ok(()) => {
            let record = r.found.held;
            let by = decide(record.older, record.newer, f.number, h.clock);
            let wide = width(record.suite);
            let count = put_opened(by, wide, record.older, record.newer, tek, vector);
            opened_call(Ok(()), counted(DONE, h), count, 0)
        }
        Err(no) => unopened(no, h, f.address, f.said, write_key, invalid),
    }
}
