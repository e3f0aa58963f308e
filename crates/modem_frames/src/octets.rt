// Sealing and opening a frame's octets at the modem (document 02, M-103). Both ask their questions in order and have no `requires`.
ghost use Rattle.std.specs.Prelude.{◌≡◌, true, ◌≤◌, length};
ghost use Rattle.key_traffic.specs.Frame.{opens};
ghost use Rattle.key_traffic.specs.Octets.{overlay};
ghost use Rattle.key_traffic.specs.Suites.{width_of};
ghost use Rattle.frame_octets.specs.Framed.{FrameSealGives, open_under_of};
ghost use Rattle.modem_frames.specs.FrameRules.{pair_opening_of};
ghost use Rattle.modem_frames.specs.Frames.{machine_out};
ghost use Rattle.modem_frames.specs.OctetFrames.{seal_frame_asked_of, open_frame_asked_of, seal_frame_value, open_frame_value, OpenFrameGives};

use crate::frames::{frame_fits, is_known, machine_of, not_opened, not_sealed, opened_call};
use crate::rules::{OpenedCall, can_open, can_seal, counted, pair_opening};
use frame_octets::framed::{
    frame_answer, frame_long, open_by, output_holds, seal_under, suite_seals,
};
use key_traffic::numbers::TekNumber;
use key_traffic::sealing::SealedCall;
use message_digest::digest::message_key_fits;
use message_rules::codes::SENT_OCTETS;
use modem_limits::limits::modem_fits;
use modem_steps::state::Modem;
use modem_tek::tek::Tek;
use questions::limits::SAID_MAX;
use questions::refusal::{Answer, DONE, Refusal, ask};

// All questions of `seal_frame`; `t` is the SAID's machine, and the last two are the lengths of the frame and of the lent slice.
#[tactic(auto, unfolding(crate::specs::OctetFrames::seal_frame_asked_of))]
fn seal_frame_answer(m: Modem, said: u16, t: Tek, frame: usize, lent: usize) -> Answer
    ensures { result ≡ seal_frame_asked_of m said t frame lent }
{
    frame_answer(
        modem_fits(m) & (said <= SAID_MAX),
        output_holds(frame, lent),
        frame_long(frame),
        is_known(m, said) & suite_seals(t.suite),
        ask(can_seal(m.clock, t.pair), Refusal::NoKeyToSeal),
    )
}

// All questions of `open_frame`; `keys` says whether the message key has its length.
#[tactic(auto, unfolding(crate::specs::OctetFrames::open_frame_asked_of))]
fn open_frame_answer(
    m: Modem,
    direction: u8,
    address: u64,
    said: u16,
    number: TekNumber,
    t: Tek,
    keys: bool,
    frame: usize,
    lent: usize,
    messages: usize,
) -> Answer
    ensures { result ≡ open_frame_asked_of m direction address said number t keys frame lent messages }
{
    frame_answer(
        frame_fits(m, direction, address, said, number),
        keys & output_holds(frame, lent) & (SENT_OCTETS <= messages),
        frame_long(frame),
        (address == m.address) & (is_known(m, said) & suite_seals(t.suite)),
        ask(can_open(m.clock, number, t.pair), Refusal::NoKeyForFrame),
    )
}

// The frame opened with the key of a machine that opens it; how many octets is handed back.
fn put_machine_frame(
    t: Tek,
    number: TekNumber,
    clock: u64,
    frame: &[u8],
    opened: &mut [u8],
) -> usize
    requires { (opens (pair_opening_of clock number t.pair) ≡ true) × (width_of t.suite ≡ 16)
        × (12 ≤ length frame.now) × (length frame.now ≤ length opened.old) }
    ensures { (result ≡ length (open_under_of (machine_out clock number t) frame.now))
        × (opened.new ≡ overlay opened.old (open_under_of (machine_out clock number t) frame.now)) }
{
    let by = pair_opening(clock, number, t.pair);
    open_by(by, t.pair.older, t.pair.newer, frame, opened)
}

// A frame sealed with the newer key of a SAID, at the front of `sealed`.
pub fn seal_frame(m: Modem, said: u16, frame: &[u8], sealed: &mut [u8]) -> SealedCall
    ensures { FrameSealGives (seal_frame_value m said frame.now (length sealed.old))
        sealed.old result sealed.new }
{
    let t = machine_of(m, said);
    match seal_frame_answer(m, said, t, frame.len(), sealed.len()) {
        Ok(()) => SealedCall {
            answer: Ok(()),
            number: t.pair.newer.number,
            width: seal_under(t.pair.newer, frame, sealed),
        },
        Err(no) => not_sealed(no),
    }
}

// A frame opened with the held key of its number, at the front of `opened`; what 13 sends goes to `out`, with its digests under `write_key`.
pub fn open_frame(
    m: Modem,
    direction: u8,
    address: u64,
    said: u16,
    number: TekNumber,
    frame: &[u8],
    write_key: &[u8],
    opened: &mut [u8],
    out: &mut [u8],
) -> OpenedCall
    ensures { OpenFrameGives (open_frame_value m direction address said number frame.now write_key.now (length opened.old) (length out.old))
        opened.old out.old result opened.new out.new }
{
    let t = machine_of(m, said);
    let keys = message_key_fits(write_key);
    match open_frame_answer(
        m,
        direction,
        address,
        said,
        number,
        t,
        keys,
        frame.len(),
        opened.len(),
        out.len(),
    ) {
        Ok(()) => {
            let w = put_machine_frame(t, number, m.clock, frame, opened);
            opened_call(Ok(()), counted(DONE, m), w, 0)
        }
        Err(no) => not_opened(m, said, no, write_key, out),
    }
}
