// A call of either end as a value: what a program that is told of calls reads, and what is applied to both ends. The octets that a call
// brings are lent beside it. A call by its numbers is defined in specs/Calls.antt.
ghost use Rattle.std.specs.Prelude.{◌≡◌};
ghost use Rattle.replay_read.specs.Calls.{plain};

use key_association::listing::{Listing, no_listing};
use key_traffic::numbers::TekNumber;

// Which call it is: a listing, the clock at both ends, the modem's own two, a message to the head-end and one to the modem, a sealing at the
// head-end and at the modem, an opening at the head-end and at the modem, and the last four of a frame's octets.
#[derive(Clone, Copy)]
pub enum Kind {
    List,
    Clock,
    Established,
    Reauth,
    Up,
    Down,
    SealDown,
    SealUp,
    OpenUp,
    OpenDown,
    SealDownFrame,
    SealUpFrame,
    OpenUpFrame,
    OpenDownFrame,
}

// The call with its numbers; those that its kind does not bring are 0. `word` is 1 for an allowed modem and 0 for a barred one, and at an opening
// the direction.
#[derive(Clone, Copy)]
pub struct Call {
    pub kind: Kind,
    pub address: u64,
    pub word: u8,
    pub second: u64,
    pub said: u16,
    pub number: TekNumber,
    pub listing: Listing,
}

// A call with no listing.
pub fn plain_call(kind: Kind, address: u64, word: u8, second: u64, said: u16, number: u8) -> Call
    ensures { result ≡ plain kind address word second said number }
{
    Call {
        kind,
        address,
        word,
        second,
        said,
        number: TekNumber(number),
        listing: no_listing(),
    }
}
