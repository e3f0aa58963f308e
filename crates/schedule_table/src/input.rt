// What the schedule program is asked for: a line of names and one of values.
ghost use Rattle.std.specs.Prelude.{◌≡◌, true, ◌<◌, eqb, length, take, get_or};
ghost use Rattle.text.specs.Same.{same_octets_of};
ghost use Rattle.schedule_table.specs.Schedule.{names, ends_at, asked_fits_of, field_in, last_in, input_of};

use questions::limits::CLOCK_MAX;
use questions::settings::life_fits;
use text::characters::{COMMA, LINE_FEED};
use text::decimal::number_at;

// Octets of the line of names, its line feed among them.
const NAMES_OCTETS: usize = 16;

// The TEK lifetime, and the seconds of the listing and of the end.
#[derive(Clone, Copy)]
pub struct Asked {
    pub life: u64,
    pub from: u64,
    pub until: u64,
}

// A number before a comma, and the place after the comma.
#[derive(Clone, Copy)]
struct Field {
    value: u64,
    next: usize,
}

// Whether the line of names stands first.
fn has_names(s: &[u8]) -> bool
    ensures { result ≡ same_octets_of (take 16 s.now) names }
{
    s.starts_with(b"life,from,until\n")
}

// Whether a comma stands at a place.
fn comma_at(s: &[u8], at: usize) -> bool
    ensures { (result ≡ eqb (get_or s.now at 0) 44) × (result ≡ true → at < length s.now) }
{
    at < s.len() && s[at] == COMMA
}

// Whether nothing stands from a place on, or one end of a line and then nothing.
fn ends_at(s: &[u8], at: usize) -> bool
    ensures { result ≡ ends_at s.now at }
{
    if s.len() <= at {
        at == s.len()
    } else {
        (s.len() - at == 1) & (s[at] == LINE_FEED)
    }
}

fn asked_fits(a: Asked) -> bool
    ensures { result ≡ asked_fits_of a }
{
    life_fits(a.life) & (a.from <= a.until) & (a.until <= CLOCK_MAX)
}

// The number at a place, where a comma follows it.
fn field_at(s: &[u8], at: usize) -> Option<Field>
    ensures { result ≡ field_in s.now at }
{
    let n = number_at(s, at);
    let value = n.value?;
    if !comma_at(s, n.next) {
        return None;
    }
    Some(Field {
        value,
        next: n.next + 1,
    })
}

// The number at a place, where the input ends after it.
fn last_at(s: &[u8], at: usize) -> Option<u64>
    ensures { result ≡ last_in s.now at }
{
    let n = number_at(s, at);
    if ends_at(s, n.next) { n.value } else { None }
}

// What the input asks for (document 01, "Edges"), or nothing where it is refused.
pub fn read(input: &[u8]) -> Option<Asked>
    ensures { result ≡ input_of input.now }
{
    if !has_names(input) {
        return None;
    }
    let life = field_at(input, NAMES_OCTETS)?;
    let from = field_at(input, life.next)?;
    let until = last_at(input, from.next)?;
    let asked = Asked {
        life: life.value,
        from: from.value,
        until,
    };
    asked_fits(asked).then_some(asked)
}
