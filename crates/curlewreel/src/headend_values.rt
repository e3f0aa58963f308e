// What the head-end's calls hand to C, by value: document 01's number for the answer.
ghost use Rattle.std.specs.Prelude.{◌≡◌};
ghost use Rattle.curlewreel.specs.HeadEndCalls.{head_end_call, head_end_opening};

use headend_frames::frames::OpenedCall;
use headend_state::state::{Called, HeadEnd};
use questions::refusal::answer_number;

// What a call answers: document 01's number, how many octets of an answer were written, and the head-end after it.
#[repr(C)]
#[derive(Clone, Copy)]
pub struct HeadEndCall {
    pub number: u8,
    pub count: usize,
    pub headend: HeadEnd,
}

// The answer of a call, for C.
pub fn headend_call(c: Called) -> HeadEndCall
    ensures { result ≡ head_end_call c }
{
    HeadEndCall {
        number: answer_number(c.answer),
        count: c.count,
        headend: c.state,
    }
}

// What opening at the head-end answers: the number, how many octets of TEK and of vector, or of the frame, were written, how many of a TEK Invalid, and
// the head-end after it.
#[repr(C)]
#[derive(Clone, Copy)]
pub struct HeadEndOpening {
    pub number: u8,
    pub width: usize,
    pub count: usize,
    pub headend: HeadEnd,
}

// The answer of an opening, for C.
pub fn headend_opening(c: OpenedCall) -> HeadEndOpening
    ensures { result ≡ head_end_opening c }
{
    HeadEndOpening {
        number: answer_number(c.answer),
        width: c.width,
        count: c.count,
        headend: c.state,
    }
}
