// An Authorization Reject and an Authorization Invalid at the modem.
ghost use Rattle.std.specs.Prelude.{◌≡◌};
ghost use Rattle.modem_steps.specs.State.{Ready};
ghost use Rattle.modem_receive.specs.Events.{reject_event_of, rejected, invalidated};

use message_rules::codes::ERROR_PERMANENT;
use modem_steps::slots::{NO_SLOT, slot_asking};
use modem_steps::state::{Modem, Progress, start};
use modem_transitions::states::{
    AUTH_EVENT_INVALID, AUTH_EVENT_PERMANENT_REJECT, AUTH_EVENT_REJECT, AUTH_REAUTH_WAIT, BLANK,
    TEK_EVENT_PEND, TEK_EVENT_STOP,
};
use modem_transitions::transitions::authorization_next;

// The least Identifier of an Authorization Invalid that answers a request; with 0 it is unsolicited.
const SOLICITED_MIN: u8 = 1;

#[tactic(auto, unfolding(crate::specs::Events::reject_event_of))]
fn reject_event(error: u8) -> u8
    ensures { result ≡ reject_event_of error }
{
    match error {
        ERROR_PERMANENT => AUTH_EVENT_PERMANENT_REJECT,
        _ => AUTH_EVENT_REJECT,
    }
}

// An Authorization Reject.
#[tactic(auto, unfolding(crate::specs::Events::rejected))]
pub fn rejected(m: Modem, error: u8) -> Progress
    requires { Ready m }
    ensures { result ≡ rejected m error }
{
    let w = start(m).plain_event(reject_event(error));
    if m.authorization.state == AUTH_REAUTH_WAIT {
        w.deliver_all(TEK_EVENT_STOP)
    } else {
        w
    }
}

// An Authorization Invalid.
#[tactic(auto, unfolding(crate::specs::Events::invalidated))]
pub fn invalidated(m: Modem, identifier: u8) -> Progress
    requires { Ready m }
    ensures { result ≡ invalidated m identifier }
{
    if authorization_next(AUTH_EVENT_INVALID, m.authorization.state) == BLANK {
        return start(m);
    }
    let slot = slot_asking(m, identifier);
    let w = start(m).plain_event(AUTH_EVENT_INVALID);
    if (SOLICITED_MIN <= identifier) & (slot < NO_SLOT) {
        w.deliver(slot, TEK_EVENT_PEND)
    } else {
        w
    }
}
