// The line of an answer and the line of the counts, written at the front of a lent slice.
ghost use Rattle.std.specs.Prelude.{◌≡◌, ◌+◌, ◌*◌, ◌≤◌, length};
ghost use Rattle.key_traffic.specs.Put.{Put};
ghost use Rattle.key_traffic.specs.Octets.{overlay};
ghost use Rattle.replay_answer.specs.Answer.{Room, answer_line, text_if, comma_hex, keys_text, seal_text, open_text, seal_frame_text, open_frame_text, rest_text, answer_text, counts_text};

use questions::refusal::{DONE, NO_KEY_FOR_FRAME};
use replay_read::calls::Kind;
use text::characters::LINE_FEED;
use text::decimal::put_decimal;
use text::hex::put_hex;
use text::put::{put_number, put_octet, put_text};

// Characters that the longest answer needs at most.
pub const ANSWER_LINE: usize = 17408;

// A comma and octets in hexadecimal.
fn put_comma_hex(out: &mut [u8], at: usize, v: &[u8]) -> usize
    requires { at + 1 + 2 * length v.now ≤ length out.old }
    ensures put { Put out.old at (comma_hex v.now) result out.new }
    ensures value { result ≡ at + 1 + 2 * length v.now }
{
    let a = put_octet(out, at, b',');
    put_hex(out, a, v)
}

// Octets that are sent, or nothing. It and `put_frame` differ in the longest that they take, which their callers' room rests on.
fn put_sent(out: &mut [u8], at: usize, on: bool, sent: &[u8]) -> usize
    requires { (length sent.now ≤ 342) × (at + 685 ≤ length out.old) }
    ensures put { Put out.old at (text_if on (comma_hex sent.now)) result out.new }
    ensures upper_bound { result ≤ at + 685 }
{
    if on { put_comma_hex(out, at, sent) } else { at }
}

// A TEK and a vector.
fn put_keys(out: &mut [u8], at: usize, tek: &[u8], vector: &[u8]) -> usize
    requires { (length tek.now ≤ 16) × ((length vector.now ≤ 16) × (at + 66 ≤ length out.old)) }
    ensures put { Put out.old at (keys_text tek.now vector.now) result out.new }
    ensures upper_bound { result ≤ at + 66 }
{
    let a = put_comma_hex(out, at, tek);
    put_comma_hex(out, a, vector)
}

fn put_seal(out: &mut [u8], at: usize, number: u8, key: u8, tek: &[u8], vector: &[u8]) -> usize
    requires { (length tek.now ≤ 16) × ((length vector.now ≤ 16) × (at + 87 ≤ length out.old)) }
    ensures put { Put out.old at (seal_text number key tek.now vector.now) result out.new }
    ensures upper_bound { result ≤ at + 87 }
{
    if number != DONE {
        return at;
    }
    let a = put_octet(out, at, b',');
    let b = put_decimal(out, a, key as u64);
    put_keys(out, b, tek, vector)
}

fn put_keys_if(out: &mut [u8], at: usize, on: bool, tek: &[u8], vector: &[u8]) -> usize
    requires { (length tek.now ≤ 16) × ((length vector.now ≤ 16) × (at + 66 ≤ length out.old)) }
    ensures put { Put out.old at (text_if on (keys_text tek.now vector.now)) result out.new }
    ensures upper_bound { result ≤ at + 66 }
{
    if on {
        put_keys(out, at, tek, vector)
    } else {
        at
    }
}

fn put_open(out: &mut [u8], at: usize, number: u8, tek: &[u8], vector: &[u8], sent: &[u8]) -> usize
    requires { (length tek.now ≤ 16) × ((length vector.now ≤ 16) × ((length sent.now ≤ 342) × (at + 751 ≤ length out.old))) }
    ensures put { Put out.old at (open_text number tek.now vector.now sent.now) result out.new }
    ensures upper_bound { result ≤ at + 751 }
{
    let a = put_keys_if(out, at, number == DONE, tek, vector);
    put_sent(out, a, number == NO_KEY_FOR_FRAME, sent)
}

// A frame's octets, or nothing.
fn put_frame(out: &mut [u8], at: usize, on: bool, frame: &[u8]) -> usize
    requires { (length frame.now ≤ 8192) × (at + 16385 ≤ length out.old) }
    ensures put { Put out.old at (text_if on (comma_hex frame.now)) result out.new }
    ensures upper_bound { result ≤ at + 16385 }
{
    if on {
        put_comma_hex(out, at, frame)
    } else {
        at
    }
}

fn put_seal_frame(out: &mut [u8], at: usize, number: u8, key: u8, frame: &[u8]) -> usize
    requires { (length frame.now ≤ 8192) × (at + 16406 ≤ length out.old) }
    ensures put { Put out.old at (seal_frame_text number key frame.now) result out.new }
    ensures upper_bound { result ≤ at + 16406 }
{
    if number != DONE {
        return at;
    }
    let a = put_octet(out, at, b',');
    let b = put_decimal(out, a, key as u64);
    put_comma_hex(out, b, frame)
}

fn put_open_frame(out: &mut [u8], at: usize, number: u8, frame: &[u8], sent: &[u8]) -> usize
    requires { (length frame.now ≤ 8192) × ((length sent.now ≤ 342) × (at + 17070 ≤ length out.old)) }
    ensures put { Put out.old at (open_frame_text number frame.now sent.now) result out.new }
    ensures upper_bound { result ≤ at + 17070 }
{
    let a = put_frame(out, at, number == DONE, frame);
    put_sent(out, a, number == NO_KEY_FOR_FRAME, sent)
}

// What follows an answer's number.
fn put_rest(
    out: &mut [u8],
    at: usize,
    kind: Kind,
    number: u8,
    key: u8,
    tek: &[u8],
    vector: &[u8],
    frame: &[u8],
    sent: &[u8],
) -> usize
    requires { (length tek.now ≤ 16) × ((length vector.now ≤ 16) × ((length frame.now ≤ 8192) × ((length sent.now ≤ 342) × (at + 17070 ≤ length out.old)))) }
    ensures put { Put out.old at (rest_text kind number key tek.now vector.now frame.now sent.now) result out.new }
    ensures upper_bound { result ≤ at + 17070 }
{
    match kind {
        Kind::List => at,
        Kind::Clock | Kind::Established | Kind::Reauth | Kind::Up | Kind::Down => {
            put_sent(out, at, number == DONE, sent)
        }
        Kind::SealDown | Kind::SealUp => put_seal(out, at, number, key, tek, vector),
        Kind::OpenUp | Kind::OpenDown => put_open(out, at, number, tek, vector, sent),
        Kind::SealDownFrame | Kind::SealUpFrame => put_seal_frame(out, at, number, key, frame),
        Kind::OpenUpFrame | Kind::OpenDownFrame => put_open_frame(out, at, number, frame, sent),
    }
}

// Writes the line of an answer and answers its length.
pub fn put_answer(
    kind: Kind,
    number: u8,
    key: u8,
    tek: &[u8],
    vector: &[u8],
    frame: &[u8],
    sent: &[u8],
    out: &mut [u8],
) -> usize
    requires { Room tek.now vector.now frame.now sent.now out.old }
    ensures out_after { out.new ≡ overlay out.old (answer_text kind number key tek.now vector.now frame.now sent.now) }
    ensures value { result ≡ length (answer_text kind number key tek.now vector.now frame.now sent.now) }
    ensures upper_bound { result ≤ answer_line }
{
    let a = put_decimal(out, 0, number as u64);
    let b = put_rest(out, a, kind, number, key, tek, vector, frame, sent);
    put_octet(out, b, LINE_FEED)
}

// Writes the line of the counts and answers its length.
pub fn put_counts(
    head_taken: u64,
    head_refused: u64,
    modem_taken: u64,
    modem_refused: u64,
    out: &mut [u8],
) -> usize
    requires { 128 ≤ length out.old }
    ensures out_after { out.new ≡ overlay out.old (counts_text head_taken head_refused modem_taken modem_refused) }
    ensures value { result ≡ length (counts_text head_taken head_refused modem_taken modem_refused) }
    ensures upper_bound { result ≤ 128 }
{
    let a = put_text(out, 0, b"frames,");
    let b = put_number(out, a, head_taken, b',');
    let c = put_number(out, b, head_refused, b',');
    let d = put_number(out, c, modem_taken, b',');
    put_number(out, d, modem_refused, LINE_FEED)
}
