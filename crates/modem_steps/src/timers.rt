// A due timer fires: that of the authorization machine, or of the TEK machine in a slot.
ghost use Rattle.std.specs.Prelude.{◌≡◌, ◌<◌};
ghost use Rattle.modem_steps.specs.State.{Ready};
ghost use Rattle.modem_steps.specs.Clock.{auth_timer_event_of, tek_timer_event_of, auth_fired_of, slot_fired_of};

use crate::state::Progress;
use modem_transitions::states::{
    AUTH_AUTHORIZED, AUTH_EVENT_GRACE, AUTH_EVENT_TIMEOUT, TEK_EVENT_REFRESH, TEK_EVENT_TIMEOUT,
    TEK_OPERATIONAL,
};
use modem_transitions::timer::is_due;

// Which event each machine's timer fires: one match each, and a function over both would have three numbers for parameters.
#[tactic(auto, unfolding(crate::specs::Clock::auth_timer_event_of))]
fn auth_timer_event(state: u8) -> u8
    ensures { result ≡ auth_timer_event_of state }
{
    match state {
        AUTH_AUTHORIZED => AUTH_EVENT_GRACE,
        _ => AUTH_EVENT_TIMEOUT,
    }
}

#[tactic(auto, unfolding(crate::specs::Clock::tek_timer_event_of))]
fn tek_timer_event(state: u8) -> u8
    ensures { result ≡ tek_timer_event_of state }
{
    match state {
        TEK_OPERATIONAL => TEK_EVENT_REFRESH,
        _ => TEK_EVENT_TIMEOUT,
    }
}

impl Progress {
    // The authorization machine's timer fires, where it is due.
    #[tactic(auto, unfolding(crate::specs::Clock::auth_fired_of))]
    pub fn auth_fired(self) -> Progress
        requires { Ready self.modem }
        ensures { (result ≡ auth_fired_of self) × Ready result.modem }
    {
        let a = self.modem.authorization;
        if is_due(a.timer, self.modem.clock) {
            self.plain_event(auth_timer_event(a.state))
        } else {
            self
        }
    }

    // The same of the TEK machine in slot `i`.
    #[tactic(auto, unfolding(crate::specs::Clock::slot_fired_of))]
    pub fn slot_fired(self, i: usize) -> Progress
        requires { (i < 4) × Ready self.modem }
        ensures { (result ≡ slot_fired_of self i) × Ready result.modem }
    {
        let t = self.modem.teks[i];
        if is_due(t.timer, self.modem.clock) {
            self.deliver(i, tek_timer_event(t.state))
        } else {
            self
        }
    }
}
