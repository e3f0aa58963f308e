// What the modem's calls hand to C, by value: document 01's number for the answer.
ghost use Rattle.std.specs.Prelude.{◌≡◌};
ghost use Rattle.curlewreel.specs.ModemCalls.{modem_call_of, frame_sealed_of, modem_opening_of};

use key_traffic::sealing::SealedCall;
use modem_frames::rules::OpenedCall;
use modem_steps::state::{Called, Modem};
use questions::refusal::answer_number;

// What a call answers: document 01's number, how many octets of messages were written, and the modem after it.
#[repr(C)]
#[derive(Clone, Copy)]
pub struct ModemCall {
    pub number: u8,
    pub count: usize,
    pub modem: Modem,
}

// The answer of a call, for C.
pub fn modem_call(c: Called) -> ModemCall
    ensures { result ≡ modem_call_of c }
{
    ModemCall {
        number: answer_number(c.answer),
        count: c.count,
        modem: c.modem,
    }
}

// What sealing answers: the number, the key's number, and how many octets of TEK and of vector, or of the frame, were written.
#[repr(C)]
#[derive(Clone, Copy)]
pub struct FrameSealed {
    pub number: u8,
    pub key: u8,
    pub width: usize,
}

// The answer of a sealing, at either end, for C.
pub fn frame_sealed(c: SealedCall) -> FrameSealed
    ensures { result ≡ frame_sealed_of c }
{
    FrameSealed {
        number: answer_number(c.answer),
        key: c.number.0,
        width: c.width,
    }
}

// What opening at the modem answers: the number, how many octets of TEK and of vector, or of the frame, were written, how many of messages, and
// the modem after it.
#[repr(C)]
#[derive(Clone, Copy)]
pub struct ModemOpening {
    pub number: u8,
    pub width: usize,
    pub count: usize,
    pub modem: Modem,
}

// The answer of an opening, for C.
pub fn modem_opening(c: OpenedCall) -> ModemOpening
    ensures { result ≡ modem_opening_of c }
{
    ModemOpening {
        number: answer_number(c.answer),
        width: c.width,
        count: c.count,
        modem: c.modem,
    }
}
