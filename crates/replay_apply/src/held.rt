// The head-end's calls on records that are held by value: the array is lent to the call and handed back.
ghost use Rattle.std.specs.Prelude.{◌≡◌, length};
ghost use Rattle.key_traffic.specs.Sealing.{SealGives};
ghost use Rattle.headend_calls.specs.Calls.{list_of, list_records_of, clock_of, clock_records_of, Receives};
ghost use Rattle.frame_octets.specs.Framed.{FrameSealGives};
ghost use Rattle.headend_frames.specs.FrameCalls.{seal_of, open_of, seal_frame_value, open_frame_value};
ghost use Rattle.headend_frames.specs.FrameCalled.{OpenGives};
ghost use Rattle.headend_frames.specs.OctetFrames.{OpenFrameGives};

use headend_calls::calls::{clock, list, receive};
use headend_calls::frames::{open, open_frame, seal, seal_frame};
use headend_frames::frames::OpenedCall;
use headend_state::state::{Called, HeadEnd};
use key_association::listing::Listing;
use key_association::record::Assoc;
use key_traffic::numbers::TekNumber;
use key_traffic::sealing::SealedCall;
use questions::limits::RECORDS_MAX;

// What a call that changes records hands back.
#[derive(Clone, Copy)]
pub struct Changed {
    pub called: Called,
    pub records: [Assoc; RECORDS_MAX],
}

fn with_records(c: Called, records: [Assoc; RECORDS_MAX]) -> Changed
    ensures { result ≡ record { called = c; records = records } }
{
    Changed { called: c, records }
}

// Lists a modem.
pub fn list_held(
    h: HeadEnd,
    records: [Assoc; RECORDS_MAX],
    address: u64,
    allowed: u8,
    l: Listing,
    material: &[u8],
) -> Changed
    ensures { result ≡ record { called = list_of h records address allowed l material.now; records = list_records_of h records address allowed l material.now } }
{
    let mut held = records;
    let c = list(h, &mut held, address, allowed, l, material);
    with_records(c, held)
}

// The clock goes to `t`.
pub fn clock_held(h: HeadEnd, records: [Assoc; RECORDS_MAX], t: u64, material: &[u8]) -> Changed
    ensures { result ≡ record { called = clock_of h records t material.now; records = clock_records_of h records t material.now } }
{
    let mut held = records;
    let c = clock(h, &mut held, t, material);
    with_records(c, held)
}

// A message from a modem.
pub fn receive_held(
    h: HeadEnd,
    records: [Assoc; RECORDS_MAX],
    address: u64,
    read: &[u8],
    write: &[u8],
    message: &[u8],
    auth: &[u8],
    out: &mut [u8],
) -> Called
    ensures { Receives h records address read.now write.now message.now auth.now out.old result out.new }
{
    receive(h, &records, address, read, write, message, auth, out)
}

// A frame to a modem.
pub fn seal_held(
    h: HeadEnd,
    records: [Assoc; RECORDS_MAX],
    address: u64,
    said: u16,
    tek: &mut [u8],
    vector: &mut [u8],
) -> SealedCall
    ensures { SealGives (seal_of h records address said (length tek.old) (length vector.old))
        tek.old vector.old result tek.new vector.new }
{
    seal(h, &records, address, said, tek, vector)
}

// A frame from a modem.
pub fn open_held(
    h: HeadEnd,
    records: [Assoc; RECORDS_MAX],
    direction: u8,
    address: u64,
    said: u16,
    number: TekNumber,
    write: &[u8],
    tek: &mut [u8],
    vector: &mut [u8],
    invalid: &mut [u8],
) -> OpenedCall
    ensures { OpenGives (open_of h records direction address said number write.now (length tek.old) (length vector.old) (length invalid.old))
        tek.old vector.old invalid.old result tek.new vector.new invalid.new }
{
    open(
        h, &records, direction, address, said, number, write, tek, vector, invalid,
    )
}

// A frame's octets to a modem.
pub fn seal_frame_held(
    h: HeadEnd,
    records: [Assoc; RECORDS_MAX],
    address: u64,
    said: u16,
    octets: &[u8],
    sealed: &mut [u8],
) -> SealedCall
    ensures { FrameSealGives (seal_frame_value h records address said octets.now (length sealed.old))
        sealed.old result sealed.new }
{
    seal_frame(h, &records, address, said, octets, sealed)
}

// A frame's octets from a modem.
pub fn open_frame_held(
    h: HeadEnd,
    records: [Assoc; RECORDS_MAX],
    direction: u8,
    address: u64,
    said: u16,
    number: TekNumber,
    octets: &[u8],
    write: &[u8],
    opened: &mut [u8],
    invalid: &mut [u8],
) -> OpenedCall
    ensures { OpenFrameGives (open_frame_value h records direction address said number octets.now write.now (length opened.old) (length invalid.old))
        opened.old invalid.old result opened.new invalid.new }
{
    open_frame(
        h, &records, direction, address, said, number, octets, write, opened, invalid,
    )
}
