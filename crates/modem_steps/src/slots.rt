// Telling a TEK machine an event, and finding a slot.
ghost use Rattle.std.specs.Prelude.{◌≡◌, ◌≤◌, ◌<◌};
ghost use Rattle.modem_steps.specs.State.{Ready};
ghost use Rattle.modem_steps.specs.Slots.{tek_context_of, stepped_at_of, deliver_reply_of, deliver, deliver_all_of, is_waiting_of, slot_of_said_of, asking, slot_asking_of};

use crate::state::{Modem, Progress};
use message_rules::fields::{Params, no_params};
use modem_tek::tek::{Tek, TekContext, TekStep};
use modem_transitions::states::{TEK_OP_WAIT, TEK_REKEY_WAIT};
use questions::limits::SAIDS_MAX;

// In place of a slot, where there is none: `slot_of_said` and `slot_asking` promise the number.
pub const NO_SLOT: usize = 4;

// What a step of a TEK machine uses of the modem.
pub fn tek_context(m: Modem) -> TekContext
    ensures { result ≡ tek_context_of m }
{
    TekContext {
        clock: m.clock,
        operational: m.settings.waits.operational,
        rekey: m.settings.waits.rekey,
        grace: m.settings.tek.grace,
        ak: m.authorization.ak,
        counter: m.counter,
    }
}

impl Progress {
    // The machine in slot `i` has taken a step.
    #[tactic(auto, unfolding(crate::specs::Slots::stepped_at_of))]
    fn stepped_at(self, i: usize, s: TekStep) -> Progress
        requires { (i < 4) × Ready self.modem }
        ensures { (result ≡ stepped_at_of self i s) × Ready result.modem }
    {
        let mut modem = self.modem;
        modem.teks[i] = s.machine;
        modem.counter = s.counter;
        Progress {
            modem,
            out: self.out.with_message(s.sends),
        }
    }

    // The machine in slot `i` takes an event, with the TEK-Parameters of a Key Reply.
    #[tactic(auto, unfolding(crate::specs::Slots::deliver_reply_of))]
    pub fn deliver_reply(self, i: usize, event: u8, older: Params, newer: Params) -> Progress
        requires { (i < 4) × (Ready self.modem × ((older.life ≤ 604800) × (newer.life ≤ 604800))) }
        ensures { (result ≡ deliver_reply_of self i event older newer) × Ready result.modem }
    {
        let x = tek_context(self.modem);
        let s = self.modem.teks[i].step(event, x, older, newer);
        self.stepped_at(i, s)
    }

    // The same of an event that is no Key Reply.
    pub fn deliver(self, i: usize, event: u8) -> Progress
        requires { (i < 4) × Ready self.modem }
        ensures { (result ≡ deliver self i event) × Ready result.modem }
    {
        self.deliver_reply(i, event, no_params(), no_params())
    }

    // All four machines take an event, in slot order.
    #[tactic(auto, unfolding(crate::specs::Slots::deliver_all_of))]
    pub fn deliver_all(self, event: u8) -> Progress
        requires { Ready self.modem }
        ensures { (result ≡ deliver_all_of 4 event self) × Ready result.modem }
    {
        let mut w = self;
        for i in 0..SAIDS_MAX {
            w = w.deliver(i, event);
        }
        w
    }
}

// A request waits while its machine is in B or E.
pub fn is_waiting(t: Tek) -> bool
    ensures { result ≡ is_waiting_of t }
{
    (t.state == TEK_OP_WAIT) | (t.state == TEK_REKEY_WAIT)
}

// The first slot in use that holds the SAID, or NO_SLOT.
pub fn slot_of_said(m: Modem, said: u16) -> usize
    ensures { (result ≡ slot_of_said_of m said) × (result ≤ 4) }
{
    m.teks
        .iter()
        .take(m.used)
        .position(|t| t.said == said)
        .unwrap_or(NO_SLOT)
}

// Whether a machine's request waits under an Identifier.
pub fn is_asking(t: Tek, identifier: u8) -> bool
    ensures { result ≡ asking identifier t }
{
    is_waiting(t) & (t.identifier == identifier)
}

// The first slot in use whose waiting request has the Identifier, or NO_SLOT.
pub fn slot_asking(m: Modem, identifier: u8) -> usize
    ensures { (result ≡ slot_asking_of m identifier) × (result ≤ 4) }
{
    m.teks
        .iter()
        .take(m.used)
        .position(|t| is_asking(*t, identifier))
        .unwrap_or(NO_SLOT)
}
