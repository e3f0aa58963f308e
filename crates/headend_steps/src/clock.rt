// The head-end's clock: what is asked, and the head-end after it.
ghost use Rattle.std.specs.Prelude.{◌≡◌};
ghost use Rattle.headend_steps.specs.Clock.{clock_answer_of, clock_called_of};

use crate::listing::is_material;
use headend_limits::limits::head_fits;
use headend_limits::search::records_fit;
use headend_state::state::{Called, HeadEnd, answered};
use questions::limits::CLOCK_MAX;
use questions::refusal::{Answer, Refusal, ask};

// Questions 1, 2 and 3. `bad` is the place of the first record out of its limits, `len` the number of records lent.
#[tactic(auto, unfolding(crate::specs::Clock::clock_answer_of, crate::specs::Clock::clock_questions))]
fn clock_answer(h: HeadEnd, t: u64, bad: usize, len: usize, octets: usize) -> Answer
    ensures { result ≡ clock_answer_of h t bad len octets }
{
    ask(
        head_fits(h) & records_fit(h, bad, len),
        Refusal::OutOfLimits,
    )?;
    ask(
        (h.used <= len) & is_material(octets, h.used),
        Refusal::WrongLength,
    )?;
    ask((h.clock <= t) & (t <= CLOCK_MAX), Refusal::ClockOutOfOrder)
}

// The call: the head-end with its clock at `t`, where nothing is refused.
#[tactic(auto, unfolding(crate::specs::Clock::clock_called_of))]
pub fn clock_called(h: HeadEnd, t: u64, bad: usize, len: usize, octets: usize) -> Called
    ensures { result ≡ clock_called_of h t bad len octets }
{
    match clock_answer(h, t, bad, len, octets) {
        Ok(()) => answered(HeadEnd { clock: t, ..h }, Ok(())),
        Err(no) => answered(h, Err(no)),
    }
}
