// The program `replay`: calls of both ends from standard input, a line each, and an answer a line on standard output, so that another
// implementation can be held against the engine call by call. Its promise: with `line::take_line`, the state after any line and the text
// that it answers are those of specs/Replay.antt, over specs/Turn.antt for a line that is a call. What a line may say is `replay_read`'s, one
// call applied to both ends and the records `replay_apply`'s. Here lines are cut out of the input, and the answers written. No contract can say
// which octets are read from standard input and written to standard output.

#![tactic(auto)]

mod line;
mod lines;
mod start;
mod turn;

ghost use Rattle.std.specs.Prelude.{◌≡◌, ◌≤◌, length, take, IfSome};
ghost use Rattle.replay.specs.Replay.{after_line};
ghost use Rattle.replay.specs.Fed.{kept, fed_by, fed_all, pending_in, Fed};

use crate::line::take_line;
use crate::lines::put_end;
use crate::start::{Replay, begin};
use replay_answer::answer::ANSWER_LINE;
use std::io::{Print, Read, Stdin, Stdout};
use text::characters::LINE_FEED;

// Characters that are kept of a line: one more than the longest that is read, so that a longer one is known by its length.
const LINE_KEPT: usize = 16385;

// Characters that are read at a time.
const INPUT_READ: usize = 4096;

// A run, and how many characters of the line that comes stand in the slice lent for it.
#[derive(Clone, Copy)]
struct Reading {
    replay: Replay,
    count: usize,
}

// A line is over: what is answered to it is written. That writing fails is not looked at.
fn answer(to: &Stdout, s: Replay, line: &[u8]) -> Replay
    ensures { result ≡ after_line s line.now }
{
    let mut space = [0u8; ANSWER_LINE];
    let t = take_line(s, line, &mut space);
    let _ = to.write_all(&space[..t.count]);
    t.replay
}

// A character of a line that goes on.
fn keep(count: usize, line: &mut [u8], b: u8) -> usize
    requires { (count ≤ 16385) × (16385 ≤ length line.old) }
    ensures { (take result line.new ≡ kept (take count line.old) b) × (result ≤ 16385) }
{
    if count < LINE_KEPT {
        line[count] = b;
        count + 1
    } else {
        count
    }
}

// A character of the input.
fn take_octet(to: &Stdout, r: Reading, line: &mut [u8], b: u8) -> Reading
    requires { (r.count ≤ 16385) × (16385 ≤ length line.old) }
    ensures { Fed (fed_by (pending_in r.replay r.count line.old) b) result line.new }
{
    if b == LINE_FEED {
        let replay = answer(to, r.replay, &line[..r.count]);
        return Reading { replay, count: 0 };
    }
    let count = keep(r.count, line, b);
    Reading { count, ..r }
}

// The characters of some input.
fn feed(to: &Stdout, r: Reading, input: &[u8], line: &mut [u8]) -> Reading
    requires { (r.count ≤ 16385) × (16385 ≤ length line.old) }
    ensures { Fed (fed_all (pending_in r.replay r.count line.old) input.now) result line.new }
{
    let mut reading = r;
    for b in input {
        reading = take_octet(to, reading, line, *b);
    }
    reading
}

// What is answered at the end of the input; the last line may lack its line feed.
fn finish(to: &Stdout, s: Replay, line: &[u8]) {
    let replay = if line.is_empty() {
        s
    } else {
        answer(to, s, line)
    };
    let mut space = [0u8; ANSWER_LINE];
    let n = put_end(replay, &mut space);
    let _ = to.write_all(&space[..n]);
}

// A run after some input, if there was any; a read that fails gives none.
fn read_some(mut from: Stdin, to: &Stdout, r: Reading, line: &mut [u8]) -> Option<Reading>
    requires { (r.count ≤ 16385) × (16385 ≤ length line.old) }
    ensures { IfSome result (λ x. x.count ≤ 16385) }
{
    let mut input = [0u8; INPUT_READ];
    let n = from.read(&mut input).unwrap_or(0);
    if n == 0 {
        return None;
    }
    Some(feed(to, r, &input[..n], line))
}

// A proved loop has to end, and nothing says that the input does: the turns are counted up to a number that no run uses up.
fn main(rt: HostRuntime) {
    let from = rt.stdin();
    let to = rt.stdout();
    let mut line = [0u8; LINE_KEPT];
    let mut reading = Reading {
        replay: begin(),
        count: 0,
    };
    for _turn in 0..u64::MAX {
        match read_some(from, &to, reading, &mut line) {
            Some(next) => reading = next,
            None => break,
        }
    }
    finish(&to, reading.replay, &line[..reading.count]);
}
