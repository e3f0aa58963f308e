// A line of a call: its kind by its name, and by its kind what its fields say.
ghost use Rattle.std.specs.Prelude.{◌≡◌, ◌≤◌, length};
ghost use Rattle.replay_fields.specs.Fields.{fields_of};
ghost use Rattle.replay_read.specs.Call.{call_of, tell_of, tell_list, tell_clock, tell_bare, tell_up, tell_down};
ghost use Rattle.replay_fields.specs.Places.{Cut};
ghost use Rattle.replay_read.specs.Reads.{Reads};

use crate::calls::{Call, Kind, plain_call};
use crate::frame::{
    read_open, read_open_frame, read_seal_down, read_seal_down_frame, read_seal_up,
    read_seal_up_frame,
};
use crate::kept::{ReadCall, alone};
use crate::name::kind_named;
use key_traffic::numbers::TekNumber;
use replay_fields::fields::{Cuts, LINE_MAX, cut_line, flag_of, number_of, to_u8};
use replay_fields::listing::pairs_from;
use replay_fields::octets::octets_of;

// Fields of a line of each kind, its name among them; a listing has this many or more.
const LIST_FIELDS_MIN: usize = 6;

const CLOCK_FIELDS: usize = 4;

const BARE_FIELDS: usize = 1;

const UP_FIELDS: usize = 6;

const DOWN_FIELDS: usize = 4;

// The functions below read the fields of a line by its kind; each says what the form says of them.
fn read_list(line: &[u8], c: Cuts) -> Option<ReadCall>
    requires { (length line.now ≤ 16384) × Cut line.now c }
    ensures { Reads line.now (tell_list (fields_of line.now)) result }
{
    if c.count < LIST_FIELDS_MIN {
        return None;
    }
    let address = number_of(line, c.first)?;
    let allowed = flag_of(line, c.second)?;
    let octets = octets_of(line, c.third)?;
    let listing = pairs_from(line, c.third.end + 1)?;
    let call = Call {
        kind: Kind::List,
        address,
        word: to_u8(allowed),
        second: 0,
        said: 0,
        number: TekNumber(0),
        listing,
    };
    Some(ReadCall {
        octets,
        ..alone(call)
    })
}

fn read_clock(line: &[u8], c: Cuts) -> Option<ReadCall>
    requires { Cut line.now c }
    ensures { Reads line.now (tell_clock (fields_of line.now)) result }
{
    if c.count != CLOCK_FIELDS {
        return None;
    }
    let second = number_of(line, c.first)?;
    let octets = octets_of(line, c.second)?;
    let key = octets_of(line, c.third)?;
    let call = plain_call(Kind::Clock, 0, 0, second, 0, 0);
    Some(ReadCall {
        octets,
        write: key,
        ..alone(call)
    })
}

// A name alone.
fn read_bare(line: &[u8], c: Cuts, kind: Kind) -> Option<ReadCall>
    requires { Cut line.now c }
    ensures { Reads line.now (tell_bare kind (fields_of line.now)) result }
{
    if c.count != BARE_FIELDS {
        return None;
    }
    Some(alone(plain_call(kind, 0, 0, 0, 0, 0)))
}

fn read_up(line: &[u8], c: Cuts) -> Option<ReadCall>
    requires { Cut line.now c }
    ensures { Reads line.now (tell_up (fields_of line.now)) result }
{
    if c.count != UP_FIELDS {
        return None;
    }
    let address = number_of(line, c.first)?;
    let read = octets_of(line, c.second)?;
    let write = octets_of(line, c.third)?;
    let auth = octets_of(line, c.fourth)?;
    let octets = octets_of(line, c.fifth)?;
    let call = plain_call(Kind::Up, address, 0, 0, 0, 0);
    Some(ReadCall {
        call,
        octets,
        auth,
        read,
        write,
    })
}

fn read_down(line: &[u8], c: Cuts) -> Option<ReadCall>
    requires { Cut line.now c }
    ensures { Reads line.now (tell_down (fields_of line.now)) result }
{
    if c.count != DOWN_FIELDS {
        return None;
    }
    let read = octets_of(line, c.first)?;
    let key = octets_of(line, c.second)?;
    let octets = octets_of(line, c.third)?;
    let call = plain_call(Kind::Down, 0, 0, 0, 0, 0);
    Some(ReadCall {
        octets,
        read,
        write: key,
        ..alone(call)
    })
}

fn read_kind(line: &[u8], c: Cuts, kind: Kind) -> Option<ReadCall>
    requires { (length line.now ≤ 16384) × Cut line.now c }
    ensures { Reads line.now (tell_of kind (fields_of line.now)) result }
{
    match kind {
        Kind::List => read_list(line, c),
        Kind::Clock => read_clock(line, c),
        Kind::Established | Kind::Reauth => read_bare(line, c, kind),
        Kind::Up => read_up(line, c),
        Kind::Down => read_down(line, c),
        Kind::SealDown => read_seal_down(line, c),
        Kind::SealUp => read_seal_up(line, c),
        Kind::OpenUp | Kind::OpenDown => read_open(line, c, kind),
        Kind::SealDownFrame => read_seal_down_frame(line, c),
        Kind::SealUpFrame => read_seal_up_frame(line, c),
        Kind::OpenUpFrame | Kind::OpenDownFrame => read_open_frame(line, c, kind),
    }
}

// What a line says, if it is a call.
pub fn read_call(line: &[u8]) -> Option<ReadCall>
    ensures { Reads line.now (call_of line.now) result }
{
    if LINE_MAX < line.len() {
        return None;
    }
    let c = cut_line(line);
    let kind = kind_named(&line[c.name.at..c.name.end])?;
    read_kind(line, c, kind)
}
