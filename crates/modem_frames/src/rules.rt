// Questions 13 and 14 of a pair, and the counts of frames.
ghost use Rattle.std.specs.Prelude.{◌≡◌};
ghost use Rattle.modem_frames.specs.FrameRules.{counted_by_of, pair_seals, pair_opening_of, pair_opens};

use key_traffic::frame::{Opening, decide, opening_number};
use key_traffic::numbers::TekNumber;
use key_traffic::sealing::one_more;
use modem_steps::state::Modem;
use modem_tek::parts::{HELD, Pair};
use questions::refusal::{Answer, DONE, NO_KEY_FOR_FRAME, UNKNOWN_SAID};

// What opening hands back: the answer, the modem after it, how many octets of TEK and of vector, or of the frame, were written, and how many of
// messages.
#[derive(Clone, Copy)]
pub struct OpenedCall {
    pub answer: Answer,
    pub modem: Modem,
    pub width: usize,
    pub count: usize,
}

// Question 14: a pair is held whose newer key is good.
pub fn can_seal(clock: u64, p: Pair) -> bool
    ensures { result ≡ pair_seals clock p }
{
    (p.held == HELD) & (clock < p.newer.deadline)
}

// The frame decision on a pair; where it is not held, no key opens the frame.
pub fn pair_opening(clock: u64, number: TekNumber, pair: Pair) -> Opening
    ensures { result ≡ pair_opening_of clock number pair }
{
    if pair.held == HELD {
        decide(pair.older, pair.newer, number, clock)
    } else {
        None
    }
}

// Question 13: a pair is held of which one key opens the frame.
pub fn can_open(clock: u64, number: TekNumber, p: Pair) -> bool
    ensures { result ≡ pair_opens clock number p }
{
    pair_opening(clock, number, p).is_some()
}

// An opening that gave the number `n` adds one to the frames taken, or to those refused with 10 or 13.
// A number, and no answer: the contract says what any `n` does.
#[tactic(auto, unfolding(crate::specs::FrameRules::counted_by_of))]
pub fn counted(n: u8, m: Modem) -> Modem
    ensures { result ≡ counted_by_of n m }
{
    match n {
        DONE => Modem {
            taken: one_more(m.taken),
            ..m
        },
        UNKNOWN_SAID | NO_KEY_FOR_FRAME => Modem {
            refused: one_more(m.refused),
            ..m
        },
        _ => m,
    }
}
