// The clock: due timers fire once each, authorization first, then the TEK machines in slot order.
ghost use Rattle.std.specs.Prelude.{◌≡◌};
ghost use Rattle.modem_steps.specs.State.{Ready, with_clock_of};
ghost use Rattle.modem_steps.specs.Clock.{clocked};

use crate::state::{Modem, Progress, start};
use questions::limits::SAIDS_MAX;

// The clock goes to `t`.
#[tactic(auto, unfolding(crate::specs::Clock::clocked, crate::specs::Clock::slots_fired_of))]
pub fn clocked(m: Modem, t: u64) -> Progress
    requires { Ready (with_clock_of m t) }
    ensures { result ≡ clocked m t }
{
    let mut w = start(Modem { clock: t, ..m }).auth_fired();
    for i in 0..SAIDS_MAX {
        w = w.slot_fired(i);
    }
    w
}
