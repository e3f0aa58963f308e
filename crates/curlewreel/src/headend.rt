// The head-end for C: every call with the state by value in and out, the records as a lent slice, and the answer as document 01's number.
// The functions over records are straight lines: the head-end's own call, then a function on values.
ghost use Rattle.std.specs.Prelude.{◌≡◌, length};
ghost use Rattle.headend_calls.specs.Calls.{new_value};
ghost use Rattle.headend_frames.specs.FrameCalls.{seal_of, open_of, seal_frame_value, open_frame_value};
ghost use Rattle.curlewreel.specs.ModemCalls.{FrameSeals, OctetsSeal};
ghost use Rattle.curlewreel.specs.HeadEndCalls.{head_end_call, HeadEndLists, HeadEndClocks, HeadEndReceives, HeadEndOpens, HeadEndOpensOctets};

use crate::headend_values::{HeadEndCall, HeadEndOpening, headend_call, headend_opening};
use crate::modem_values::{FrameSealed, frame_sealed};
use headend_calls::calls::{clock, list, new, receive};
use headend_calls::frames::{open, open_frame, seal, seal_frame};
use headend_state::state::HeadEnd;
use key_association::listing::Listing;
use key_association::record::Assoc;
use key_traffic::numbers::TekNumber;
use questions::settings::Settings;

// A fresh head-end at clock 0; where it is refused, one that is all zero.
#[unsafe(no_mangle)]
pub extern "C" fn curlewreel_headend_new(settings: Settings) -> HeadEndCall
    ensures { result ≡ head_end_call (new_value settings) }
{
    let c = new(settings);
    headend_call(c)
}

// Lists a modem with 1 to 4 SAIDs, whose first keys are minted from `material` into the records behind those in use.
#[unsafe(no_mangle)]
pub extern "C" fn curlewreel_headend_list(
    h: HeadEnd,
    records: &mut [Assoc],
    address: u64,
    allowed: u8,
    listing: Listing,
    material: &[u8],
) -> HeadEndCall
    ensures { HeadEndLists h records.old address allowed listing material.now result records.new }
{
    let c = list(h, records, address, allowed, listing, material);
    headend_call(c)
}

// The clock goes to second `t`: keys that are over go, and new ones are minted from `material`.
#[unsafe(no_mangle)]
pub extern "C" fn curlewreel_headend_clock(
    h: HeadEnd,
    records: &mut [Assoc],
    t: u64,
    material: &[u8],
) -> HeadEndCall
    ensures { HeadEndClocks h records.old t material.now result records.new }
{
    let c = clock(h, records, t, material);
    headend_call(c)
}

// A message from the modem of that address; its digest is asked under `read_key`, and the answer has its digest under `write_key`.
#[unsafe(no_mangle)]
pub extern "C" fn curlewreel_headend_receive(
    h: HeadEnd,
    records: &[Assoc],
    address: u64,
    message: &[u8],
    read_key: &[u8],
    write_key: &[u8],
    auth_key: &[u8],
    out: &mut [u8],
) -> HeadEndCall
    ensures { HeadEndReceives h records.now address message.now read_key.now write_key.now auth_key.now out.old result out.new }
{
    let c = receive(
        h, records, address, read_key, write_key, message, auth_key, out,
    );
    headend_call(c)
}

// The older key of a SAID of that modem, to seal a frame with.
#[unsafe(no_mangle)]
pub extern "C" fn curlewreel_headend_seal(
    h: HeadEnd,
    records: &[Assoc],
    address: u64,
    said: u16,
    tek: &mut [u8],
    vector: &mut [u8],
) -> FrameSealed
    ensures { FrameSeals (seal_of h records.now address said (length tek.old) (length vector.old))
        tek.old vector.old result tek.new vector.new }
{
    let c = seal(h, records, address, said, tek, vector);
    frame_sealed(c)
}

// The held key with the number of a frame from that modem; where there is none, a TEK Invalid may go to `invalid`, with its digest under `write_key`.
#[unsafe(no_mangle)]
pub extern "C" fn curlewreel_headend_open(
    h: HeadEnd,
    records: &[Assoc],
    direction: u8,
    address: u64,
    said: u16,
    number: u8,
    write_key: &[u8],
    tek: &mut [u8],
    vector: &mut [u8],
    invalid: &mut [u8],
) -> HeadEndOpening
    ensures { HeadEndOpens (open_of h records.now direction address said (record { 0 = number }) write_key.now (length tek.old) (length vector.old) (length invalid.old))
        tek.old vector.old invalid.old result tek.new vector.new invalid.new }
{
    let c = open(
        h,
        records,
        direction,
        address,
        said,
        TekNumber(number),
        write_key,
        tek,
        vector,
        invalid,
    );
    headend_opening(c)
}

// The octets of a frame for that modem, sealed with the older key of a SAID, at the front of `sealed` (document 02, M-103).
#[unsafe(no_mangle)]
pub extern "C" fn curlewreel_headend_seal_frame(
    h: HeadEnd,
    records: &[Assoc],
    address: u64,
    said: u16,
    octets: &[u8],
    sealed: &mut [u8],
) -> FrameSealed
    ensures { OctetsSeal (seal_frame_value h records.now address said octets.now (length sealed.old))
        sealed.old result sealed.new }
{
    let c = seal_frame(h, records, address, said, octets, sealed);
    frame_sealed(c)
}

// The octets of a frame from that modem, opened with the held key of its number, at the front of `opened`; where there is none, a TEK Invalid may go to
// `invalid`, with its digest under `write_key`.
#[unsafe(no_mangle)]
pub extern "C" fn curlewreel_headend_open_frame(
    h: HeadEnd,
    records: &[Assoc],
    direction: u8,
    address: u64,
    said: u16,
    number: u8,
    octets: &[u8],
    write_key: &[u8],
    opened: &mut [u8],
    invalid: &mut [u8],
) -> HeadEndOpening
    ensures { HeadEndOpensOctets (open_frame_value h records.now direction address said (record { 0 = number }) octets.now write_key.now (length opened.old) (length invalid.old))
        opened.old invalid.old result opened.new invalid.new }
{
    let c = open_frame(
        h,
        records,
        direction,
        address,
        said,
        TekNumber(number),
        octets,
        write_key,
        opened,
        invalid,
    );
    headend_opening(c)
}
