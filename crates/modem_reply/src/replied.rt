// An Authorization Reply at the modem.
ghost use Rattle.std.specs.Prelude.{◌≡◌, ◌≤◌};
ghost use Rattle.modem_steps.specs.State.{Ready};
ghost use Rattle.modem_reply.specs.Replied.{replied};

use crate::relist::{listed_anew, relisted};
use message_rules::fields::Fields;
use modem_steps::state::{Modem, Progress, start};
use modem_transitions::states::{AUTH_EVENT_REPLY, AUTH_REAUTH_WAIT};

// An Authorization Reply, in B or D.
#[tactic(auto, unfolding(crate::specs::Replied::replied))]
pub fn replied(m: Modem, f: Fields) -> Progress
    requires { Ready m × (f.life ≤ 12096000) }
    ensures { result ≡ replied m f }
{
    let w = start(m).deliver_auth(AUTH_EVENT_REPLY, f.ak, f.life);
    if m.authorization.state == AUTH_REAUTH_WAIT {
        relisted(w, f)
    } else {
        listed_anew(w, f)
    }
}
