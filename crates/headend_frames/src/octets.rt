// Sealing and opening a frame's octets at the head-end (document 02, M-103), with what the search over the records found.
ghost use Rattle.std.specs.Prelude.{◌≡◌, ◌&&◌, length};
ghost use Rattle.frame_octets.specs.Framed.{suite_seals_of, FrameSealGives};
ghost use Rattle.headend_state.specs.Entries.{known_of};
ghost use Rattle.headend_frames.specs.FrameQuestions.{is_own_of};
ghost use Rattle.headend_frames.specs.OctetFrames.{seal_frame_answer_of, open_frame_answer_of, sealed_frame_with, opened_frame_with, OpenFrameGives};

use crate::frames::{OpenedCall, opened_call, unopened, unsealed};
use crate::rules::{Header, Searched, counted, frame_fits, header_fits, held_answer, is_own};
use frame_octets::framed::{
    frame_answer, frame_long, open_by, output_holds, seal_under, suite_seals,
};
use headend_state::entries::entry_of;
use headend_state::state::HeadEnd;
use key_association::search::Found;
use key_traffic::frame::decide;
use key_traffic::sealing::SealedCall;
use message_digest::digest::message_key_fits;
use message_rules::codes::INVALID_OCTETS;
use questions::refusal::{Answer, DONE};

// Question 10 of a frame's octets: the SAID is this modem's, and its frames are sealed here.
fn seals_own(h: HeadEnd, s: Found, address: u64, said: u16) -> bool
    ensures { result ≡ is_own_of (known_of h address) said && suite_seals_of s.held.suite }
{
    is_own(entry_of(h, address), said) & suite_seals(s.held.suite)
}

// All questions of sealing; the last two are the lengths of the frame and of the lent slice.
#[tactic(auto, unfolding(crate::specs::OctetFrames::seal_frame_answer_of))]
fn seal_frame_answer(
    h: HeadEnd,
    r: Searched,
    address: u64,
    said: u16,
    frame: usize,
    lent: usize,
) -> Answer
    ensures { result ≡ seal_frame_answer_of h r.bad r.len r.found address said frame lent }
{
    frame_answer(
        frame_fits(h, r, address, said),
        (h.used <= r.len) & output_holds(frame, lent),
        frame_long(frame),
        seals_own(h, r.found, address, said),
        Ok(()),
    )
}

// All questions of opening; `keys` says whether the message key has its length, and the last length is that of the slice for a TEK Invalid.
#[tactic(auto, unfolding(crate::specs::OctetFrames::open_frame_answer_of))]
fn open_frame_answer(
    h: HeadEnd,
    r: Searched,
    f: Header,
    keys: bool,
    frame: usize,
    lent: usize,
    invalid: usize,
) -> Answer
    ensures { result ≡ open_frame_answer_of h r.bad r.len r.found f.direction f.address f.said f.number keys frame lent invalid }
{
    frame_answer(
        header_fits(h, r, f),
        keys & (h.used <= r.len) & output_holds(frame, lent) & (INVALID_OCTETS <= invalid),
        frame_long(frame),
        seals_own(h, r.found, f.address, f.said),
        held_answer(r.found.held.older, r.found.held.newer, f.number, h.clock),
    )
}

// Sealing: the frame sealed with the older key goes to the front of the slice. What is the same in `seal_called` is `unsealed`: one function over a
// closure that writes would have to say what the closure does to each slice.
#[tactic(auto, unfolding(crate::specs::OctetFrames::sealed_frame_with))]
pub fn seal_frame_called(
    h: HeadEnd,
    r: Searched,
    address: u64,
    said: u16,
    frame: &[u8],
    sealed: &mut [u8],
) -> SealedCall
    ensures { FrameSealGives (sealed_frame_with h r.bad r.len r.found address said frame.now (length sealed.old))
        sealed.old result sealed.new }
{
    match seal_frame_answer(h, r, address, said, frame.len(), sealed.len()) {
        Ok(()) => {
            let key = r.found.held.older;
            SealedCall {
                answer: Ok(()),
                number: key.number,
                width: seal_under(key, frame, sealed),
            }
        }
        Err(no) => unsealed(no),
    }
}

// Opening: the opened frame goes to the front of the first slice, a TEK Invalid to the front of the second.
#[tactic(auto, unfolding(crate::specs::OctetFrames::opened_frame_with))]
pub fn open_frame_called(
    h: HeadEnd,
    r: Searched,
    f: Header,
    frame: &[u8],
    write_key: &[u8],
    opened: &mut [u8],
    invalid: &mut [u8],
) -> OpenedCall
    ensures { OpenFrameGives (opened_frame_with h r.bad r.len r.found f.direction f.address f.said f.number frame.now write_key.now (length opened.old) (length invalid.old))
        opened.old invalid.old result opened.new invalid.new }
{
    let keys = message_key_fits(write_key);
    match open_frame_answer(h, r, f, keys, frame.len(), opened.len(), invalid.len()) {
        Ok(()) => {
            let record = r.found.held;
            let by = decide(record.older, record.newer, f.number, h.clock);
            let count = open_by(by, record.older, record.newer, frame, opened);
            opened_call(Ok(()), counted(DONE, h), count, 0)
        }
        Err(no) => unopened(no, h, f.address, f.said, write_key, invalid),
    }
}
