// The questions of sealing and of opening at the head-end, and the counts of frames.
ghost use Rattle.std.specs.Prelude.{◌≡◌, [], ◌∷◌, ◌&&◌, eqb};
ghost use Rattle.key_traffic.specs.Numbers.{tek_in_range_of};
ghost use Rattle.questions.specs.declared.refusal.Refusal.TheVariants.{NoKeyForFrame};
ghost use Rattle.questions.specs.Questions.{first_no};
ghost use Rattle.key_traffic.specs.Frame.{opening_of, opens};
ghost use Rattle.headend_frames.specs.FrameQuestions.{is_own_of, held_suits_of, frame_fits_of, seal_answer_of, open_answer_of, counted_by_of};

use headend_limits::limits::{address_fits, head_fits};
use headend_limits::search::{found_suits, records_fit};
use headend_state::entries::{Known, entry_of, is_listing};
use headend_state::state::HeadEnd;
use key_association::record::said_fits;
use key_association::search::Found;
use key_traffic::frame::{UP, decide, opening_number};
use key_traffic::numbers::{TekNumber, tek_in_range};
use key_traffic::octets::KEY_OCTETS;
use key_traffic::sealing::one_more;
use key_traffic::traffic::TrafficKey;
use message_rules::codes::INVALID_OCTETS;
use questions::refusal::{Answer, DONE, NO_KEY_FOR_FRAME, Refusal, UNKNOWN_SAID, ask};

// What the searches over the lent records found: the place of the first record out of its limits, how many records are lent, and what was found
// for the SAID.
#[derive(Clone, Copy)]
pub struct Searched {
    pub bad: usize,
    pub len: usize,
    pub found: Found,
}

// A frame to be opened: its direction, the address of its modem, its SAID and the number of its key.
#[derive(Clone, Copy)]
pub struct Header {
    pub direction: u8,
    pub address: u64,
    pub said: u16,
    pub number: TekNumber,
}

// Question 10: the SAID is this modem's.
pub fn is_own(k: Known, said: u16) -> bool
    ensures { result ≡ is_own_of k said }
{
    k.is_listed & is_listing(k.entry.listing, said)
}

// Question 13, of the decision on the two keys that are held.
pub fn held_answer(older: TrafficKey, newer: TrafficKey, number: TekNumber, clock: u64) -> Answer
    ensures { result ≡ first_no (record { refusal = NoKeyForFrame; met = opens (opening_of clock number older newer) } ∷ []) }
{
    ask(
        opening_number(decide(older, newer, number, clock)) == DONE,
        Refusal::NoKeyForFrame,
    )
}

// Question 1 of the record that a frame's key is taken from.
#[tactic(auto, unfolding(crate::specs::FrameQuestions::held_suits_of))]
fn held_suits(h: HeadEnd, len: usize, s: Found, k: Known, said: u16) -> bool
    ensures { result ≡ held_suits_of h len s k said }
{
    !is_own(k, said) | found_suits(h, len, s, k, said)
}

// Question 1 of a frame's address and SAID.
#[tactic(auto, unfolding(crate::specs::FrameQuestions::frame_fits_of))]
pub fn frame_fits(h: HeadEnd, r: Searched, address: u64, said: u16) -> bool
    ensures { result ≡ frame_fits_of h r.bad r.len r.found address said }
{
    head_fits(h)
        & records_fit(h, r.bad, r.len)
        & address_fits(address)
        & said_fits(said)
        & held_suits(h, r.len, r.found, entry_of(h, address), said)
}

// All questions of sealing; the last two are the lengths of the slices for TEK and vector.
#[tactic(auto, unfolding(crate::specs::FrameQuestions::seal_answer_of))]
pub fn seal_answer(
    h: HeadEnd,
    r: Searched,
    address: u64,
    said: u16,
    tek: usize,
    vector: usize,
) -> Answer
    ensures { result ≡ seal_answer_of h r.bad r.len r.found address said tek vector }
{
    ask(frame_fits(h, r, address, said), Refusal::OutOfLimits)?;
    ask(
        (h.used <= r.len) & (KEY_OCTETS <= tek) & (KEY_OCTETS <= vector),
        Refusal::WrongLength,
    )?;
    ask(is_own(entry_of(h, address), said), Refusal::UnknownSaid)
}

// Question 1 of a frame to be opened.
pub fn header_fits(h: HeadEnd, r: Searched, f: Header) -> bool
    ensures { result ≡ frame_fits_of h r.bad r.len r.found f.address f.said && eqb f.direction 0 && tek_in_range_of f.number }
{
    frame_fits(h, r, f.address, f.said) & (f.direction == UP) & tek_in_range(f.number)
}

// All questions of opening; `keys` says whether the message key has its length, and the last length is that of the slice for a TEK Invalid.
#[tactic(auto, unfolding(crate::specs::FrameQuestions::open_answer_of))]
pub fn open_answer(
    h: HeadEnd,
    r: Searched,
    f: Header,
    keys: bool,
    tek: usize,
    vector: usize,
    lent: usize,
) -> Answer
    ensures { result ≡ open_answer_of h r.bad r.len r.found f.direction f.address f.said f.number keys tek vector lent }
{
    ask(header_fits(h, r, f), Refusal::OutOfLimits)?;
    ask(
        keys & (h.used <= r.len)
            & (KEY_OCTETS <= tek)
            & (KEY_OCTETS <= vector)
            & (INVALID_OCTETS <= lent),
        Refusal::WrongLength,
    )?;
    ask(is_own(entry_of(h, f.address), f.said), Refusal::UnknownSaid)?;
    held_answer(r.found.held.older, r.found.held.newer, f.number, h.clock)
}

// The head-end after an opening that is answered with `no`: a frame taken, or refused with 10 or 13, is counted. A number and no Answer:
// `counted_by_of` says it of every number.
#[tactic(auto, unfolding(crate::specs::FrameQuestions::counted_by_of))]
pub fn counted(no: u8, h: HeadEnd) -> HeadEnd
    ensures { result ≡ counted_by_of no h }
{
    match no {
        DONE => HeadEnd {
            taken: one_more(h.taken),
            ..h
        },
        UNKNOWN_SAID | NO_KEY_FOR_FRAME => HeadEnd {
            refused: one_more(h.refused),
            ..h
        },
        _ => h,
    }
}
