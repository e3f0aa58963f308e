// The schedule program's input and output: it reads standard input and writes the table to standard output, 4,096 octets at
// a time. No contract can say which octets a write to it puts out; `schedule_table` says what the slices hold that are
// handed to it, and here they are counted: all of them, where every write went out.

#![tactic(auto)]

ghost use Rattle.std.specs.Prelude.{◌≡◌, ◌≤◌, length};
ghost use Rattle.schedule_table.specs.Schedule.{output_of};
ghost use Rattle.schedule_io.specs.Sent.{Sends, SendsSome};

use schedule_table::print::{fill, start};
use std::io::{Print, Read, Stdin, Stdout};

// Octets of the input that decide.
const INPUT_OCTETS: usize = 128;

// Octets of the slice that is written at a time.
const SLICE_OCTETS: usize = 4096;

// A write failed: how many octets had been handed to the output, of which some of the last slice's may have gone out.
#[derive(Clone, Copy)]
pub struct WriteFailed {
    pub octets: usize,
}

// Prints all that the input asks for, and answers how many octets they are; it stops where a write fails.
pub fn print(to: &Stdout, input: &[u8]) -> Result<usize, WriteFailed>
    ensures { Sends (output_of input.now) result }
{
    let mut out = [0u8; SLICE_OCTETS];
    let first = start(input, &mut out);
    let mut octets = first.count;
    if to.write_all(&out[..first.count]).is_err() {
        return Err(WriteFailed { octets });
    }
    let mut cursor = first.cursor;
    // as long as calls are left, which each slice takes some of
    while 1 <= cursor.left {
        let more = fill(cursor, &mut out);
        octets += more.count;
        if to.write_all(&out[..more.count]).is_err() {
            return Err(WriteFailed { octets });
        }
        cursor = more.cursor;
    }
    Ok(octets)
}

// Reads until `buf` is full, the input ends or a read fails, and answers how many octets stand at the front of `buf`.
fn read_full(mut from: Stdin, buf: &mut [u8]) -> usize
    ensures { result ≤ length buf.new }
{
    let mut done: usize = 0;
    // a read gives as many octets as it likes
    while done < buf.len() {
        let n = from.read(&mut buf[done..]).unwrap_or(0);
        if n == 0 {
            return done;
        }
        done += n;
    }
    done
}

// Reads standard input and prints. The first 128 octets decide (`first_octets` of schedule_table's InputLaws).
pub fn run(from: Stdin, to: &Stdout) -> Result<usize, WriteFailed>
    ensures { SendsSome result }
{
    let mut input = [0u8; INPUT_OCTETS];
    let n = read_full(from, &mut input);
    print(to, &input[..n])
}
