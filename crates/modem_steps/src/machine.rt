// What an event of the authorization machine does to the modem.
ghost use Rattle.std.specs.Prelude.{◌≡◌, ◌≤◌};
ghost use Rattle.modem_steps.specs.State.{Ready};
ghost use Rattle.modem_steps.specs.Machine.{auth_context_of, auth_stepped_of, deliver_auth_of, plain_event_of};

use crate::state::{Modem, Progress};
use key_traffic::numbers::AkNumber;
use modem_authorization::authorization::{AuthContext, AuthStep};

fn auth_context(m: Modem, ak: AkNumber, life: u64) -> AuthContext
    ensures { result ≡ auth_context_of m ak life }
{
    AuthContext {
        clock: m.clock,
        authorize: m.settings.waits.authorize,
        reauthorize: m.settings.waits.reauthorize,
        reject: m.settings.waits.reject,
        grace: m.settings.ak.grace,
        said: m.said,
        counter: m.counter,
        ak,
        life,
    }
}

impl Progress {
    // The authorization machine has taken a step.
    #[tactic(auto, unfolding(crate::specs::Machine::auth_stepped_of))]
    fn auth_stepped(self, s: AuthStep) -> Progress
        requires { Ready self.modem }
        ensures { (result ≡ auth_stepped_of self s) × Ready result.modem }
    {
        Progress {
            modem: Modem {
                authorization: s.machine,
                counter: s.counter,
                ..self.modem
            },
            out: self.out.with_message(s.informs).with_message(s.requests),
        }
    }

    // The authorization machine takes an event, with the number and life of a Reply's key.
    #[tactic(auto, unfolding(crate::specs::Machine::deliver_auth_of))]
    pub fn deliver_auth(self, event: u8, ak: AkNumber, life: u64) -> Progress
        requires { Ready self.modem × (life ≤ 12096000) }
        ensures { (result ≡ deliver_auth_of self event ak life) × Ready result.modem }
    {
        let x = auth_context(self.modem, ak, life);
        let s = self.modem.authorization.step(event, x);
        self.auth_stepped(s)
    }

    // An event that is no Reply.
    pub fn plain_event(self, event: u8) -> Progress
        requires { Ready self.modem }
        ensures { (result ≡ plain_event_of self event) × Ready result.modem }
    {
        self.deliver_auth(event, AkNumber(0), 0)
    }
}
