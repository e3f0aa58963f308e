// Lines of calls on a frame, by its key or its octets: what their fields say.
ghost use Rattle.std.specs.Prelude.{◌≡◌};
ghost use Rattle.replay_fields.specs.Fields.{fields_of};
ghost use Rattle.replay_fields.specs.Places.{Cut, text_of};
ghost use Rattle.replay_read.specs.Call.{tell_seal_down, tell_seal_up, tell_open, tell_seal_down_frame, tell_seal_up_frame, tell_open_frame};
ghost use Rattle.replay_read.specs.CallPlaces.{seal_down_in, seal_up_in, open_in};
ghost use Rattle.replay_read.specs.Reads.{Reads};

use crate::calls::{Call, Kind, plain_call};
use crate::kept::{ReadCall, alone};
use replay_fields::fields::{Cuts, number_of, to_u8, to_u16};
use replay_fields::octets::octets_of;

// Fields of a line of each kind, its name among them.
const SEAL_DOWN_FIELDS: usize = 3;

const SEAL_UP_FIELDS: usize = 2;

const OPEN_FIELDS: usize = 6;

const SEAL_DOWN_FRAME_FIELDS: usize = 4;

const SEAL_UP_FRAME_FIELDS: usize = 3;

const OPEN_FRAME_FIELDS: usize = 7;

// The numbers of a sealing at the head-end: an address and a SAID.
fn seal_down_call(line: &[u8], c: Cuts, kind: Kind) -> Option<Call>
    requires { Cut line.now c }
    ensures { result ≡ seal_down_in kind (text_of line.now c.first) (text_of line.now c.second) }
{
    let address = number_of(line, c.first)?;
    let said = number_of(line, c.second)?;
    Some(plain_call(kind, address, 0, 0, to_u16(said), 0))
}

// Of one at the modem: a SAID.
fn seal_up_call(line: &[u8], c: Cuts, kind: Kind) -> Option<Call>
    requires { Cut line.now c }
    ensures { result ≡ seal_up_in kind (text_of line.now c.first) }
{
    let said = number_of(line, c.first)?;
    Some(plain_call(kind, 0, 0, 0, to_u16(said), 0))
}

// Of an opening: a direction, an address, a SAID and a key's number.
fn open_call(line: &[u8], c: Cuts, kind: Kind) -> Option<Call>
    requires { Cut line.now c }
    ensures { result ≡ open_in kind (text_of line.now c.first) (text_of line.now c.second) (text_of line.now c.third) (text_of line.now c.fourth) }
{
    let direction = number_of(line, c.first)?;
    let address = number_of(line, c.second)?;
    let said = number_of(line, c.third)?;
    let number = number_of(line, c.fourth)?;
    let word = to_u8(direction);
    Some(plain_call(kind, address, word, 0, to_u16(said), to_u8(number)))
}

pub fn read_seal_down(line: &[u8], c: Cuts) -> Option<ReadCall>
    requires { Cut line.now c }
    ensures { Reads line.now (tell_seal_down (fields_of line.now)) result }
{
    if c.count != SEAL_DOWN_FIELDS {
        return None;
    }
    let call = seal_down_call(line, c, Kind::SealDown)?;
    Some(alone(call))
}

pub fn read_seal_up(line: &[u8], c: Cuts) -> Option<ReadCall>
    requires { Cut line.now c }
    ensures { Reads line.now (tell_seal_up (fields_of line.now)) result }
{
    if c.count != SEAL_UP_FIELDS {
        return None;
    }
    let call = seal_up_call(line, c, Kind::SealUp)?;
    Some(alone(call))
}

pub fn read_open(line: &[u8], c: Cuts, kind: Kind) -> Option<ReadCall>
    requires { Cut line.now c }
    ensures { Reads line.now (tell_open kind (fields_of line.now)) result }
{
    if c.count != OPEN_FIELDS {
        return None;
    }
    let call = open_call(line, c, kind)?;
    let write = octets_of(line, c.fifth)?;
    Some(ReadCall {
        write,
        ..alone(call)
    })
}

pub fn read_seal_down_frame(line: &[u8], c: Cuts) -> Option<ReadCall>
    requires { Cut line.now c }
    ensures { Reads line.now (tell_seal_down_frame (fields_of line.now)) result }
{
    if c.count != SEAL_DOWN_FRAME_FIELDS {
        return None;
    }
    let call = seal_down_call(line, c, Kind::SealDownFrame)?;
    let octets = octets_of(line, c.third)?;
    Some(ReadCall {
        octets,
        ..alone(call)
    })
}

pub fn read_seal_up_frame(line: &[u8], c: Cuts) -> Option<ReadCall>
    requires { Cut line.now c }
    ensures { Reads line.now (tell_seal_up_frame (fields_of line.now)) result }
{
    if c.count != SEAL_UP_FRAME_FIELDS {
        return None;
    }
    let call = seal_up_call(line, c, Kind::SealUpFrame)?;
    let octets = octets_of(line, c.second)?;
    Some(ReadCall {
        octets,
        ..alone(call)
    })
}

pub fn read_open_frame(line: &[u8], c: Cuts, kind: Kind) -> Option<ReadCall>
    requires { Cut line.now c }
    ensures { Reads line.now (tell_open_frame kind (fields_of line.now)) result }
{
    if c.count != OPEN_FRAME_FIELDS {
        return None;
    }
    let call = open_call(line, c, kind)?;
    let write = octets_of(line, c.fifth)?;
    let octets = octets_of(line, c.sixth)?;
    Some(ReadCall {
        octets,
        write,
        ..alone(call)
    })
}
