// A frame's octets sealed with a traffic key, and opened with the key that a frame decision names.
ghost use Rattle.std.specs.Prelude.{◌≡◌, true, ◌≤◌, leb, length};
ghost use Rattle.key_traffic.specs.Frame.{opens};
ghost use Rattle.key_traffic.specs.Octets.{overlay};
ghost use Rattle.key_traffic.specs.Sealing.{key_out, opened_by_of};
ghost use Rattle.frame_octets.specs.Framed.{frame_long_of, suite_seals_of, frame_asked_of, seal_under_of, open_under_of};

use cipher_cbc::chaining::CLEAR_OCTETS;
use cipher_cbc::frame::{open_frame, seal_frame};
use key_traffic::frame::{Held, Opening};
use key_traffic::suites::SUITE_AES;
use key_traffic::traffic::TrafficKey;
use questions::refusal::{Answer, Refusal, ask};

// The part of question 2 that asks for the output: it holds the frame.
pub fn output_holds(frame: usize, out: usize) -> bool
    ensures { result ≡ leb frame out }
{
    frame <= out
}

// Question 15 of a frame's length.
pub fn frame_long(frame: usize) -> bool
    ensures { result ≡ frame_long_of frame }
{
    CLEAR_OCTETS <= frame
}

// Whether a suite's frames are sealed here.
pub fn suite_seals(suite: u16) -> bool
    ensures { result ≡ suite_seals_of suite }
{
    suite == SUITE_AES
}

// Questions 1, 2, 15 and 10 in this order, and the answer to those after them where all are met.
pub fn frame_answer(q1: bool, q2: bool, q15: bool, q10: bool, later: Answer) -> Answer
    ensures { result ≡ frame_asked_of q1 q2 q15 q10 later }
{
    ask(q1, Refusal::OutOfLimits)?;
    ask(q2, Refusal::WrongLength)?;
    ask(q15, Refusal::ShortFrame)?;
    ask(q10, Refusal::UnknownSaid)?;
    later
}

// The sealed frame goes to the front of `out`; how many octets is handed back.
pub fn seal_under(k: TrafficKey, frame: &[u8], out: &mut [u8]) -> usize
    requires { (12 ≤ length frame.now) × (length frame.now ≤ length out.old) }
    ensures { (result ≡ length (seal_under_of (key_out 16 k) frame.now))
        × (out.new ≡ overlay out.old (seal_under_of (key_out 16 k) frame.now)) }
{
    seal_frame(&k.tek, &k.vector, frame, out);
    frame.len()
}

// The same of a frame that is opened.
fn open_under(k: TrafficKey, frame: &[u8], out: &mut [u8]) -> usize
    requires { (12 ≤ length frame.now) × (length frame.now ≤ length out.old) }
    ensures { (result ≡ length (open_under_of (key_out 16 k) frame.now))
        × (out.new ≡ overlay out.old (open_under_of (key_out 16 k) frame.now)) }
{
    open_frame(&k.tek, &k.vector, frame, out);
    frame.len()
}

// The same with whichever held key opens the frame.
pub fn open_by(
    o: Opening,
    older: TrafficKey,
    newer: TrafficKey,
    frame: &[u8],
    out: &mut [u8],
) -> usize
    requires { (opens o ≡ true) × (12 ≤ length frame.now) × (length frame.now ≤ length out.old) }
    ensures { (result ≡ length (open_under_of (opened_by_of o 16 older newer) frame.now))
        × (out.new ≡ overlay out.old (open_under_of (opened_by_of o 16 older newer) frame.now)) }
{
    match o {
        Some(Held::Older) => open_under(older, frame, out),
        Some(Held::Newer) => open_under(newer, frame, out),
        None => 0,
    }
}
