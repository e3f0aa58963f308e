// The TEK machine of one SAID.
ghost use Rattle.std.specs.Prelude.{◌≡◌, ◌≤◌, cond};
ghost use Rattle.modem_tek.specs.Tek.{identifier_after_of, tek_timer, drops_pair, stores_pair, HasTransition, pair_after_of, tek_sends_of, tek_moved, tek_step_of, TekReady};

use crate::parts::{
    Pair, Request, counter_after, is_new, is_sending, no_pair, no_request, pair_of,
};
use key_traffic::numbers::AkNumber;
use key_traffic::traffic::difference;
use message_rules::codes::CODE_KEY_REQUEST;
use message_rules::fields::Params;
use modem_transitions::identifier::next_if;
use modem_transitions::states::{
    BLANK, TEK_EVENT_INVALID, TEK_EVENT_KEY_REJECT, TEK_EVENT_KEY_REPLY, TEK_EVENT_STOP,
    TEK_OP_WAIT, TEK_OPERATIONAL, TEK_REKEY_WAIT,
};
use modem_transitions::timer::{Timer, cleared, set_at};
use modem_transitions::transitions::tek_next;

// `state` is 0 to 5 for A to F; `identifier` is that of its last Key Request.
#[repr(C)]
#[derive(Clone, Copy)]
pub struct Tek {
    pub said: u16,
    pub suite: u16,
    pub state: u8,
    pub identifier: u8,
    pub timer: Timer,
    pub pair: Pair,
}

// What a step of a TEK machine uses of the modem: the clock, its waits and grace, the authorization key that requests name, and the
// Identifier counter.
#[derive(Clone, Copy)]
pub struct TekContext {
    pub clock: u64,
    pub operational: u64,
    pub rekey: u64,
    pub grace: u64,
    pub ak: AkNumber,
    pub counter: u8,
}

// The machine after a step, the counter, and what it sends.
#[derive(Clone, Copy)]
pub struct TekStep {
    pub machine: Tek,
    pub counter: u8,
    pub sends: Request,
}

#[tactic(auto, unfolding(crate::specs::Tek::tek_timer))]
fn timer_after(to: u8, x: TekContext, newer: Params) -> Timer
    requires { (x.clock ≤ 1000000000000) × ((x.operational ≤ 600) × ((x.rekey ≤ 600) × (newer.life ≤ 604800))) }
    ensures { result ≡ tek_timer to x newer }
{
    match to {
        TEK_OP_WAIT => set_at(x.clock + x.operational),
        TEK_REKEY_WAIT => set_at(x.clock + x.rekey),
        TEK_OPERATIONAL => set_at(x.clock + difference(newer.life, x.grace)),
        _ => cleared(),
    }
}

fn is_dropping(event: u8) -> bool
    ensures { result ≡ drops_pair event }
{
    (event == TEK_EVENT_STOP) | (event == TEK_EVENT_INVALID) | (event == TEK_EVENT_KEY_REJECT)
}

// A Key Reply is taken in B, the first exchange, and in E, every later one.
fn is_storing(event: u8, from: u8) -> bool
    requires { HasTransition event from }
    ensures { result ≡ stores_pair event }
{
    (event == TEK_EVENT_KEY_REPLY) & ((from == TEK_OP_WAIT) | (from == TEK_REKEY_WAIT))
}

impl Tek {
    #[tactic(auto, unfolding(crate::specs::Tek::identifier_after_of))]
    fn identifier_after(self, event: u8, to: u8, x: TekContext) -> u8
        ensures { result ≡ identifier_after_of event to self x }
    {
        next_if(is_new(event, to), x.counter, self.identifier)
    }

    #[tactic(auto, unfolding(crate::specs::Tek::pair_after_of))]
    fn pair_after(self, event: u8, clock: u64, older: Params, newer: Params) -> Pair
        requires { (clock ≤ 1000000000000) × ((older.life ≤ 604800) × ((newer.life ≤ 604800) × HasTransition event self.state)) }
        ensures { result ≡ pair_after_of event self clock older newer }
    {
        if is_dropping(event) {
            no_pair()
        } else if is_storing(event, self.state) {
            pair_of(clock, older, newer)
        } else {
            self.pair
        }
    }

    #[tactic(auto, unfolding(crate::specs::Tek::tek_sends_of))]
    fn sends_after(self, event: u8, to: u8, x: TekContext) -> Request
        ensures { result ≡ tek_sends_of event to self x }
    {
        if is_sending(to) {
            Request {
                code: CODE_KEY_REQUEST,
                identifier: self.identifier_after(event, to, x),
                ak: x.ak,
                said: self.said,
            }
        } else {
            no_request()
        }
    }

    #[tactic(auto, unfolding(crate::specs::Tek::tek_moved))]
    fn moved(self, event: u8, to: u8, x: TekContext, older: Params, newer: Params) -> TekStep
        requires { TekReady x older newer × HasTransition event self.state }
        ensures { result ≡ tek_moved event to self x older newer }
    {
        let machine = Tek {
            state: to,
            identifier: self.identifier_after(event, to, x),
            timer: timer_after(to, x, newer),
            pair: self.pair_after(event, x.clock, older, newer),
            ..self
        };
        TekStep {
            machine,
            counter: counter_after(event, to, x.counter),
            sends: self.sends_after(event, to, x),
        }
    }

    // The machine takes an event; `older` and `newer` are a Key Reply's, and no other event uses them.
    #[tactic(auto, unfolding(crate::specs::Tek::tek_step_of))]
    pub fn step(self, event: u8, x: TekContext, older: Params, newer: Params) -> TekStep
        requires { TekReady x older newer }
        ensures { result ≡ tek_step_of self event x older newer }
    {
        match tek_next(event, self.state) {
            BLANK => TekStep {
                machine: self,
                counter: x.counter,
                sends: no_request(),
            },
            to => self.moved(event, to, x, older, newer),
        }
    }
}
