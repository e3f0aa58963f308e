// The modem for C: every call with the state by value in and out, and the answer as document 01's number.
ghost use Rattle.std.specs.Prelude.{◌≡◌, length};
ghost use Rattle.modem_calls.specs.Calls.{new_value, established_of, reauth_of, clock_of, receive_of};
ghost use Rattle.modem_frames.specs.Frames.{seal_of, open_of};
ghost use Rattle.modem_frames.specs.OctetFrames.{seal_frame_value, open_frame_value};
ghost use Rattle.curlewreel.specs.ModemCalls.{modem_call_of, ModemGives, FrameSeals, ModemOpens, OctetsSeal, ModemOpensOctets};

use crate::modem_values::{
    FrameSealed, ModemCall, ModemOpening, frame_sealed, modem_call, modem_opening,
};
use key_traffic::numbers::TekNumber;
use modem_calls::calls::{clock, established, new, reauth, receive};
use modem_frames::frames::{open, seal};
use modem_frames::octets::{open_frame, seal_frame};
use modem_steps::state::Modem;
use questions::settings::Settings;

// A fresh modem at clock 0; where it is refused, one that is all zero.
#[unsafe(no_mangle)]
pub extern "C" fn curlewreel_modem_new(settings: Settings, address: u64, said: u16) -> ModemCall
    ensures { result ≡ modem_call_of (new_value settings address said) }
{
    let c = new(settings, address, said);
    modem_call(c)
}

// The modem is established; what it sends goes to `out`.
#[unsafe(no_mangle)]
pub extern "C" fn curlewreel_modem_established(m: Modem, out: &mut [u8]) -> ModemCall
    ensures { ModemGives (established_of m (length out.old))
        out.old result out.new }
{
    let c = established(m, out);
    modem_call(c)
}

// The modem is to reauthorize; what it sends goes to `out`.
#[unsafe(no_mangle)]
pub extern "C" fn curlewreel_modem_reauth(m: Modem, out: &mut [u8]) -> ModemCall
    ensures { ModemGives (reauth_of m (length out.old))
        out.old result out.new }
{
    let c = reauth(m, out);
    modem_call(c)
}

// The clock goes to second `t`, and due timers fire; what they send goes to `out`, with its digests under `write_key`.
#[unsafe(no_mangle)]
pub extern "C" fn curlewreel_modem_clock(
    m: Modem,
    t: u64,
    write_key: &[u8],
    out: &mut [u8],
) -> ModemCall
    ensures { ModemGives (clock_of m t write_key.now (length out.old))
        out.old result out.new }
{
    let c = clock(m, t, write_key, out);
    modem_call(c)
}

// A message comes; its digest is asked under `read_key`, and what is sent has its digests under `write_key`.
#[unsafe(no_mangle)]
pub extern "C" fn curlewreel_modem_receive(
    m: Modem,
    message: &[u8],
    read_key: &[u8],
    write_key: &[u8],
    out: &mut [u8],
) -> ModemCall
    ensures { ModemGives (receive_of m message.now read_key.now write_key.now (length out.old))
        out.old result out.new }
{
    let c = receive(m, message, read_key, write_key, out);
    modem_call(c)
}

// The newer key of a SAID, to seal a frame with.
#[unsafe(no_mangle)]
pub extern "C" fn curlewreel_modem_seal(
    m: Modem,
    said: u16,
    tek: &mut [u8],
    vector: &mut [u8],
) -> FrameSealed
    ensures { FrameSeals (seal_of m said (length tek.old) (length vector.old))
        tek.old vector.old result tek.new vector.new }
{
    let c = seal(m, said, tek, vector);
    frame_sealed(c)
}

// The held key with a frame's number; where there is none, what the SAID's machine sends goes to `out`, with its digest under `write_key`.
#[unsafe(no_mangle)]
pub extern "C" fn curlewreel_modem_open(
    m: Modem,
    direction: u8,
    address: u64,
    said: u16,
    number: u8,
    write_key: &[u8],
    tek: &mut [u8],
    vector: &mut [u8],
    out: &mut [u8],
) -> ModemOpening
    ensures { ModemOpens (open_of m direction address said (record { 0 = number }) write_key.now (length tek.old) (length vector.old) (length out.old))
        tek.old vector.old out.old result tek.new vector.new out.new }
{
    let c = open(
        m,
        direction,
        address,
        said,
        TekNumber(number),
        write_key,
        tek,
        vector,
        out,
    );
    modem_opening(c)
}

// A frame's octets sealed with the newer key of a SAID, at the front of `sealed` (document 02, M-103).
#[unsafe(no_mangle)]
pub extern "C" fn curlewreel_modem_seal_frame(
    m: Modem,
    said: u16,
    frame: &[u8],
    sealed: &mut [u8],
) -> FrameSealed
    ensures { OctetsSeal (seal_frame_value m said frame.now (length sealed.old))
        sealed.old result sealed.new }
{
    let c = seal_frame(m, said, frame, sealed);
    frame_sealed(c)
}

// A frame's octets opened with the held key of its number, at the front of `opened`; where there is none, what the SAID's machine sends goes to `out`,
// with its digest under `write_key`.
#[unsafe(no_mangle)]
pub extern "C" fn curlewreel_modem_open_frame(
    m: Modem,
    direction: u8,
    address: u64,
    said: u16,
    number: u8,
    frame: &[u8],
    write_key: &[u8],
    opened: &mut [u8],
    out: &mut [u8],
) -> ModemOpening
    ensures { ModemOpensOctets (open_frame_value m direction address said (record { 0 = number }) frame.now write_key.now (length opened.old) (length out.old))
        opened.old out.old result opened.new out.new }
{
    let c = open_frame(
        m,
        direction,
        address,
        said,
        TekNumber(number),
        frame,
        write_key,
        opened,
        out,
    );
    modem_opening(c)
}
