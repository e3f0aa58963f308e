// The head-end's calls on frames: sealing one for a modem, and opening one that came from it, by key and in octets. The records are read and not
// changed. All are straight lines: every decision is made by a function of `headend_frames` on values.
ghost use Rattle.std.specs.Prelude.{◌≡◌, length};
ghost use Rattle.key_traffic.specs.Sealing.{SealGives};
ghost use Rattle.key_association.specs.declared.search.Probe.TheVariants.{OfSaid};
ghost use Rattle.key_records.specs.Records.{first_of, lookup_of};
ghost use Rattle.headend_limits.specs.Search.{out_of_limits_of};
ghost use Rattle.headend_frames.specs.FrameCalled.{OpenGives};
ghost use Rattle.headend_frames.specs.FrameCalls.{seal_of, open_of, seal_frame_value, open_frame_value};
ghost use Rattle.headend_frames.specs.OctetFrames.{OpenFrameGives};
ghost use Rattle.frame_octets.specs.Framed.{FrameSealGives};

use headend_frames::frames::{OpenedCall, open_called, seal_called};
use headend_frames::octets::{open_frame_called, seal_frame_called};
use headend_frames::rules::{Header, Searched};
use headend_limits::search::{of_said, out_of_limits};
use headend_state::state::HeadEnd;
use key_association::record::Assoc;
use key_records::{first, lookup};
use key_traffic::numbers::TekNumber;
use key_traffic::sealing::SealedCall;

// What the calls on frames look for in the lent records.
fn searched(h: HeadEnd, records: &[Assoc], said: u16) -> Searched
    ensures { result ≡ record { bad = first_of (out_of_limits_of h) records.now; len = length records.now; found = lookup_of (OfSaid said) records.now } }
{
    Searched {
        bad: first(records, out_of_limits(h)),
        len: records.len(),
        found: lookup(records, of_said(said)),
    }
}

// A frame to the modem of that address: the octets of the SAID's older key go to the front of `tek` and `vector`.
pub fn seal(
    h: HeadEnd,
    records: &[Assoc],
    address: u64,
    said: u16,
    tek: &mut [u8],
    vector: &mut [u8],
) -> SealedCall
    ensures { SealGives (seal_of h records.now address said (length tek.old) (length vector.old))
        tek.old vector.old result tek.new vector.new }
{
    seal_called(h, searched(h, records, said), address, said, tek, vector)
}

// A frame of that direction and number from the modem of that address: the octets of the held key that opens it go to the front of `tek`
// and `vector`, or a TEK Invalid for the modem, with the digest of `write_key`, to the front of `invalid`.
pub fn open(
    h: HeadEnd,
    records: &[Assoc],
    direction: u8,
    address: u64,
    said: u16,
    number: TekNumber,
    write_key: &[u8],
    tek: &mut [u8],
    vector: &mut [u8],
    invalid: &mut [u8],
) -> OpenedCall
    ensures { OpenGives (open_of h records.now direction address said number write_key.now (length tek.old) (length vector.old) (length invalid.old))
        tek.old vector.old invalid.old result tek.new vector.new invalid.new }
{
    let header = Header {
        direction,
        address,
        said,
        number,
    };
    let found = searched(h, records, said);
    open_called(h, found, header, write_key, tek, vector, invalid)
}

// The octets of a frame to the modem of that address, sealed with the SAID's older key, go to the front of `sealed`.
pub fn seal_frame(
    h: HeadEnd,
    records: &[Assoc],
    address: u64,
    said: u16,
    octets: &[u8],
    sealed: &mut [u8],
) -> SealedCall
    ensures { FrameSealGives (seal_frame_value h records.now address said octets.now (length sealed.old))
        sealed.old result sealed.new }
{
    seal_frame_called(h, searched(h, records, said), address, said, octets, sealed)
}

// The octets of a frame of that direction and number from the modem of that address, opened with the held key of its number, go to the front of
// `opened`, or a TEK Invalid for the modem, with the digest of `write_key`, to the front of `invalid`.
pub fn open_frame(
    h: HeadEnd,
    records: &[Assoc],
    direction: u8,
    address: u64,
    said: u16,
    number: TekNumber,
    octets: &[u8],
    write_key: &[u8],
    opened: &mut [u8],
    invalid: &mut [u8],
) -> OpenedCall
    ensures { OpenFrameGives (open_frame_value h records.now direction address said number octets.now write_key.now (length opened.old) (length invalid.old))
        opened.old invalid.old result opened.new invalid.new }
{
    let header = Header {
        direction,
        address,
        said,
        number,
    };
    let found = searched(h, records, said);
    open_frame_called(h, found, header, octets, write_key, opened, invalid)
}
