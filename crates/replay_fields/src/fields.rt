// The fields of a line, cut at its commas: where each stands, how many they are, and the number that one says.
ghost use Rattle.std.specs.Prelude.{◌≡◌, ◌≤◌, leb, min, length};
ghost use Rattle.replay_fields.specs.Fields.{fields_of};
ghost use Rattle.replay_fields.specs.Places.{Inside, Cut, field_at, text_of, num_of, cuts_of, flag_of_given};

use text::characters::COMMA;
use text::decimal::number_at;

// The longest line that is read, in characters, and the character after each line.
pub const LINE_MAX: usize = 16384;

// A flag is 0 or 1.
const FLAG_MAX: u64 = 1;

// The octets of a line from `at` up to `end`.
#[derive(Clone, Copy)]
pub struct Field {
    pub at: usize,
    pub end: usize,
}

// How many fields a line has, and where its first seven stand.
#[derive(Clone, Copy)]
pub struct Cuts {
    pub count: usize,
    pub name: Field,
    pub first: Field,
    pub second: Field,
    pub third: Field,
    pub fourth: Field,
    pub fifth: Field,
    pub sixth: Field,
}

// The field that starts at a place. Past the line's end it is empty.
pub fn field_at(line: &[u8], at: usize) -> Field
    ensures { (result ≡ field_at line.now at) × Inside line.now result }
{
    let at = at.min(line.len());
    let (_, rest) = line.split_at(at);
    let count = rest.iter().position(|b| *b == COMMA).unwrap_or(rest.len());
    Field {
        at,
        end: at + count,
    }
}

// One more than the line has commas.
pub fn count_fields(line: &[u8]) -> usize
    requires { length line.now ≤ 16384 }
    ensures { result ≡ length (fields_of line.now) }
{
    line.iter().filter(|b| **b == COMMA).count() + 1
}

// How many fields a line has, and where they stand.
pub fn cut_line(line: &[u8]) -> Cuts
    requires { length line.now ≤ 16384 }
    ensures { (result ≡ cuts_of line.now) × Cut line.now result }
{
    let count = count_fields(line);
    let name = field_at(line, 0);
    let first = field_at(line, name.end + 1);
    let second = field_at(line, first.end + 1);
    let third = field_at(line, second.end + 1);
    let fourth = field_at(line, third.end + 1);
    let fifth = field_at(line, fourth.end + 1);
    let sixth = field_at(line, fifth.end + 1);
    Cuts {
        count,
        name,
        first,
        second,
        third,
        fourth,
        fifth,
        sixth,
    }
}

// The number that a field of the line says, if it is one and nothing else.
pub fn number_of(line: &[u8], f: Field) -> Option<u64>
    requires { Inside line.now f }
    ensures { result ≡ num_of (text_of line.now f) }
{
    let text = &line[f.at..f.end];
    let n = number_at(text, 0);
    if n.next == text.len() { n.value } else { None }
}

// The number that a field says, where it is 0 or 1.
#[tactic(auto, unfolding(crate::specs::Places::num_of, crate::specs::Places::flag_of_given, crate::specs::Fields::is_flag))]
pub fn flag_of(line: &[u8], f: Field) -> Option<u64>
    requires { Inside line.now f }
    ensures { result ≡ flag_of_given (text_of line.now f) }
{
    number_of(line, f).filter(
        |n|
            ensures { result ≡ leb n.now 1 }
        { *n <= FLAG_MAX },
    )
}

// A number as an octet; one that is larger is taken as the largest. This and the next are a line each, which a generic one would not shorten.
pub fn to_u8(n: u64) -> u8
    ensures { result ≡ min n 255 }
{
    u8::try_from(n).unwrap_or(u8::MAX)
}

// The same as two octets.
pub fn to_u16(n: u64) -> u16
    ensures { result ≡ min n 65535 }
{
    u16::try_from(n).unwrap_or(u16::MAX)
}
