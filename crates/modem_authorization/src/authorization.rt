// The authorization machine.
ghost use Rattle.std.specs.Prelude.{◌≡◌};
ghost use Rattle.modem_authorization.specs.Authorization.{is_passive_of, requests_into, auth_takes_new, auth_identifier, auth_counter, auth_timer, ak_after_of, informs_value, requests_of, auth_moved, auth_step_of, AuthReady};

use key_traffic::numbers::AkNumber;
use key_traffic::traffic::difference;
use message_rules::codes::{
    CODE_AUTHENTICATION_INFORMATION, CODE_AUTHORIZATION_REQUEST, UNSOLICITED,
};
use modem_tek::parts::{Request, no_request};
use modem_transitions::identifier::next_if;
use modem_transitions::states::{
    AUTH_AUTHORIZED, AUTH_EVENT_INVALID, AUTH_EVENT_REPLY, AUTH_EVENT_TIMEOUT, AUTH_REAUTH_WAIT,
    AUTH_REJECT_WAIT, AUTH_WAIT, BLANK,
};
use modem_transitions::timer::{Timer, cleared, set_at};
use modem_transitions::transitions::authorization_next;

// `state` is 0 to 5 for A to F; `identifier` is that of its last Request; `ak` is the number of the last Reply's key.
#[repr(C)]
#[derive(Clone, Copy)]
pub struct Authorization {
    pub state: u8,
    pub identifier: u8,
    pub ak: AkNumber,
    pub timer: Timer,
}

// A type of its own beside `TekContext`: they have the clock, the grace and the counter in common, and the definitions of each name its waits.
// What a step uses of the modem: the clock, the waits, the grace, the modem's own SAID and the Identifier counter; and of a Reply
// the key's number and life.
#[derive(Clone, Copy)]
pub struct AuthContext {
    pub clock: u64,
    pub authorize: u64,
    pub reauthorize: u64,
    pub reject: u64,
    pub grace: u64,
    pub said: u16,
    pub counter: u8,
    pub ak: AkNumber,
    pub life: u64,
}

// The machine after a step, the counter, and what it sends: Authentication Information, then a Request, each where its code is not 0.
#[derive(Clone, Copy)]
pub struct AuthStep {
    pub machine: Authorization,
    pub counter: u8,
    pub informs: Request,
    pub requests: Request,
}

fn is_passive(event: u8, from: u8) -> bool
    ensures { result ≡ is_passive_of event from }
{
    (event == AUTH_EVENT_INVALID) & (from == AUTH_REAUTH_WAIT)
}

fn is_requesting(event: u8, from: u8, to: u8) -> bool
    ensures { result ≡ requests_into event from to }
{
    ((to == AUTH_WAIT) | (to == AUTH_REAUTH_WAIT)) & !is_passive(event, from)
}

fn is_new(event: u8, from: u8, to: u8) -> bool
    ensures { result ≡ auth_takes_new event from to }
{
    is_requesting(event, from, to) & (event != AUTH_EVENT_TIMEOUT)
}

#[tactic(auto, unfolding(crate::specs::Authorization::informs_value))]
fn informs_of(to: u8) -> Request
    ensures { result ≡ informs_value to }
{
    if to == AUTH_WAIT {
        Request {
            code: CODE_AUTHENTICATION_INFORMATION,
            identifier: UNSOLICITED,
            ak: AkNumber(0),
            said: 0,
        }
    } else {
        no_request()
    }
}

impl Authorization {
    #[tactic(auto, unfolding(crate::specs::Authorization::auth_identifier))]
    fn identifier_after(self, event: u8, to: u8, x: AuthContext) -> u8
        ensures { result ≡ auth_identifier event to self x }
    {
        next_if(is_new(event, self.state, to), x.counter, self.identifier)
    }

    #[tactic(auto, unfolding(crate::specs::Authorization::auth_counter))]
    fn counter_after(self, event: u8, to: u8, x: AuthContext) -> u8
        ensures { result ≡ auth_counter event to self x }
    {
        next_if(is_new(event, self.state, to), x.counter, x.counter)
    }

    #[tactic(auto, unfolding(crate::specs::Authorization::auth_timer))]
    fn timer_after(self, event: u8, to: u8, x: AuthContext) -> Timer
        requires { AuthReady x }
        ensures { result ≡ auth_timer event to self x }
    {
        if is_passive(event, self.state) {
            return self.timer;
        }
        match to {
            AUTH_WAIT => set_at(x.clock + x.authorize),
            AUTH_REAUTH_WAIT => set_at(x.clock + x.reauthorize),
            AUTH_REJECT_WAIT => set_at(x.clock + x.reject),
            AUTH_AUTHORIZED => set_at(x.clock + difference(x.life, x.grace)),
            _ => cleared(),
        }
    }

    fn ak_after(self, event: u8, x: AuthContext) -> AkNumber
        ensures { result ≡ ak_after_of event self x }
    {
        match event {
            AUTH_EVENT_REPLY => x.ak,
            _ => self.ak,
        }
    }

    #[tactic(auto, unfolding(crate::specs::Authorization::requests_of))]
    fn requests_after(self, event: u8, to: u8, x: AuthContext) -> Request
        ensures { result ≡ requests_of event to self x }
    {
        if is_requesting(event, self.state, to) {
            Request {
                code: CODE_AUTHORIZATION_REQUEST,
                identifier: self.identifier_after(event, to, x),
                ak: AkNumber(0),
                said: x.said,
            }
        } else {
            no_request()
        }
    }

    #[tactic(auto, unfolding(crate::specs::Authorization::auth_moved))]
    fn moved(self, event: u8, to: u8, x: AuthContext) -> AuthStep
        requires { AuthReady x }
        ensures { result ≡ auth_moved event to self x }
    {
        let machine = Authorization {
            state: to,
            identifier: self.identifier_after(event, to, x),
            ak: self.ak_after(event, x),
            timer: self.timer_after(event, to, x),
        };
        AuthStep {
            machine,
            counter: self.counter_after(event, to, x),
            informs: informs_of(to),
            requests: self.requests_after(event, to, x),
        }
    }

    // The machine takes an event; `x.ak` and `x.life` are a Reply's, and no other event uses them.
    #[tactic(auto, unfolding(crate::specs::Authorization::auth_step_of))]
    pub fn step(self, event: u8, x: AuthContext) -> AuthStep
        requires { AuthReady x }
        ensures { result ≡ auth_step_of self event x }
    {
        match authorization_next(event, self.state) {
            BLANK => AuthStep {
                machine: self,
                counter: x.counter,
                informs: no_request(),
                requests: no_request(),
            },
            to => self.moved(event, to, x),
        }
    }
}
