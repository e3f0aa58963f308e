// A line that is a call, applied to both ends, and its answer.
ghost use Rattle.std.specs.Prelude.{◌≡◌, ◌≤◌, length};
ghost use Rattle.key_traffic.specs.Octets.{overlay};
ghost use Rattle.replay_answer.specs.Answer.{answer_line};
ghost use Rattle.replay_apply.specs.Steps.{step_for};
ghost use Rattle.replay.specs.Turn.{no_call_text, step_read, PlacesFit, GivenFits, PutsGiven, AnswersStep, AnswersLine};

use crate::lines::put_no_call;
use key_traffic::octets::KEY_OCTETS;
use message_rules::codes::ANSWER_OCTETS;
use replay_answer::answer::put_answer;
use replay_apply::apply::apply;
use replay_apply::ends::{Applied, Ends};
use replay_fields::fields::LINE_MAX;
use replay_read::call::read_call;
use replay_read::calls::{Call, Kind};
use replay_read::kept::ReadCall;
use text::hex::put_octets_at;

// Octets that the digits of a line may say, and so those of a frame: half as many as its characters.
const LINE_OCTETS: usize = 8192;

// The ends after a line, and how many characters were answered.
#[derive(Clone, Copy)]
pub struct Turned {
    pub count: usize,
    pub ends: Ends,
}

// The answer of a call that was applied, by what it left at the front of the slices lent to it.
fn put_given(
    kind: Kind,
    a: Applied,
    tek: &[u8],
    vector: &[u8],
    frame: &[u8],
    sent: &[u8],
    out: &mut [u8],
) -> usize
    requires { GivenFits a tek.now vector.now frame.now sent.now out.old }
    ensures puts_given { PutsGiven kind a tek.now vector.now frame.now sent.now out.old result out.new }
    ensures upper_bound { result ≤ answer_line }
{
    put_answer(
        kind,
        a.number,
        a.key.0,
        &tek[..a.width],
        &vector[..a.width],
        &frame[..a.frame],
        &sent[..a.count],
        out,
    )
}

// A call with its octets and its keys, applied, with a slice for a frame's octets; the answer is written.
fn applied_line(
    e: Ends,
    c: Call,
    octets: &[u8],
    auth: &[u8],
    read: &[u8],
    write: &[u8],
    frame: &mut [u8],
    out: &mut [u8],
) -> Turned
    requires { (length frame.old ≤ 8192) × (answer_line ≤ length out.old) }
    ensures answers_step { AnswersStep e (step_for c octets.now auth.now read.now write.now 16 16 342 (length frame.old)) c.kind out.old
        result.ends result.count out.new }
    ensures count_le_answer_line { result.count ≤ answer_line }
{
    let mut tek = [0u8; KEY_OCTETS];
    let mut vector = [0u8; KEY_OCTETS];
    let mut sent = [0u8; ANSWER_OCTETS];
    let a = apply(
        e,
        c,
        octets,
        auth,
        read,
        write,
        &mut tek,
        &mut vector,
        &mut sent,
        frame,
    );
    let count = put_given(c.kind, a, &tek, &vector, frame, &sent, out);
    Turned {
        count,
        ends: a.ends,
    }
}

// The call of a line, with its octets and its keys taken out of it.
fn call_line(e: Ends, line: &[u8], r: ReadCall, out: &mut [u8]) -> Turned
    requires { PlacesFit r line.now × ((length line.now ≤ 16384) × (answer_line ≤ length out.old)) }
    ensures answers_step { AnswersStep e (step_read r line.now) r.call.kind out.old result.ends result.count out.new }
    ensures count_le_answer_line { result.count ≤ answer_line }
{
    let mut octets = [0u8; LINE_OCTETS];
    let mut auth = [0u8; LINE_OCTETS];
    let mut read = [0u8; LINE_OCTETS];
    let mut write = [0u8; LINE_OCTETS];
    let mut frame = [0u8; LINE_OCTETS];
    put_octets_at(line, r.octets.at, r.octets.count, &mut octets);
    put_octets_at(line, r.auth.at, r.auth.count, &mut auth);
    put_octets_at(line, r.read.at, r.read.count, &mut read);
    put_octets_at(line, r.write.at, r.write.count, &mut write);
    applied_line(
        e,
        r.call,
        &octets[..r.octets.count],
        &auth[..r.auth.count],
        &read[..r.read.count],
        &write[..r.write.count],
        &mut frame[..r.octets.count],
        out,
    )
}

// A line that is no call leaves the ends as they were.
fn no_call(e: Ends, out: &mut [u8]) -> Turned
    requires { answer_line ≤ length out.old }
    ensures { (result ≡ record { count = 2; ends = e }) × (out.new ≡ overlay out.old no_call_text) }
{
    let count = put_no_call(out);
    Turned { count, ends: e }
}

// A line of a run that has its set-up: the ends after it, and its answer at the front of `out`.
pub fn turn(e: Ends, line: &[u8], out: &mut [u8]) -> Turned
    requires { answer_line ≤ length out.old }
    ensures answers_line { AnswersLine e line.now out.old result.ends result.count out.new }
    ensures count_le_answer_line { result.count ≤ answer_line }
{
    if LINE_MAX < line.len() {
        return no_call(e, out);
    }
    match read_call(line) {
        Some(r) => call_line(e, line, r, out),
        None => no_call(e, out),
    }
}
