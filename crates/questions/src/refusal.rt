// What a call answers: done, or refused by one of the questions, and the number of each.
ghost use Rattle.std.specs.Prelude.{◌≡◌, cond};
ghost use Rattle.questions.specs.Answer.{Done, Refused};
ghost use Rattle.questions.specs.Refusal.{number_of, answer_number_of, earliest};

// The refusals: 14 in the order of document 01's questions, then document 02's 15 (M-103).
#[derive(Clone, Copy, Debug, PartialEq, Eq)]
pub enum Refusal {
    OutOfLimits,
    WrongLength,
    ClockOutOfOrder,
    NoFreePlace,
    NotNew,
    CutMessage,
    CodeNotReceived,
    BadAttribute,
    WrongAttributes,
    UnknownSaid,
    WrongIdentifier,
    DigestFails,
    NoKeyForFrame,
    NoKeyToSeal,
    ShortFrame,
}

// The number of a refusal.
impl From<Refusal> for u8 {
    ghost from_gives = { λ r n. n ≡ number_of r };

    fn from(r: Refusal) -> u8 {
        match r {
            Refusal::OutOfLimits => 1,
            Refusal::WrongLength => 2,
            Refusal::ClockOutOfOrder => 3,
            Refusal::NoFreePlace => 4,
            Refusal::NotNew => 5,
            Refusal::CutMessage => 6,
            Refusal::CodeNotReceived => 7,
            Refusal::BadAttribute => 8,
            Refusal::WrongAttributes => 9,
            Refusal::UnknownSaid => 10,
            Refusal::WrongIdentifier => 11,
            Refusal::DigestFails => 12,
            Refusal::NoKeyForFrame => 13,
            Refusal::NoKeyToSeal => 14,
            Refusal::ShortFrame => 15,
        }
    }
}

// Numbers that code gives or compares without the type: nothing refused, and four of the refusals.
pub const DONE: u8 = 0;

pub const OUT_OF_LIMITS: u8 = 1;

pub const WRONG_LENGTH: u8 = 2;

pub const UNKNOWN_SAID: u8 = 10;

pub const NO_KEY_FOR_FRAME: u8 = 13;

// What a call answers: done, or refused.
pub type Answer = Result<(), Refusal>;

// 0 for done, else the refusal's number.
pub fn answer_number(a: Answer) -> u8
    ensures { result ≡ answer_number_of a }
{
    match a {
        Ok(()) => DONE,
        Err(r) => u8::from(r),
    }
}

// One question: refused with `no` where it is not met.
pub fn ask(met: bool, no: Refusal) -> Answer
    ensures { result ≡ cond met Done (Refused no) }
{
    if met { Ok(()) } else { Err(no) }
}

// The number of a clock call from those of both ends: that of the earlier question, 0 being none.
pub fn earlier_number(a: u8, b: u8) -> u8
    ensures { result ≡ earliest a b }
{
    if a == DONE {
        return b;
    }
    if b == DONE {
        return a;
    }
    if a <= b { a } else { b }
}
