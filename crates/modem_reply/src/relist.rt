// The TEK machines after an Authorization Reply.
ghost use Rattle.std.specs.Prelude.{◌≡◌, ◌<◌};
ghost use Rattle.modem_steps.specs.State.{Ready};
ghost use Rattle.modem_reply.specs.Relist.{emptied, appended, joined_of, kept_one_of, fresh_tek_of, started_one_of, started_to, listed_anew_of, relisted};

use crate::listed::survives;
use message_rules::fields::{Descriptor, Fields, no_params};
use modem_steps::slots::{NO_SLOT, slot_of_said, tek_context};
use modem_steps::state::{Modem, Progress, no_tek};
use modem_tek::tek::{Tek, TekStep};
use modem_transitions::states::{TEK_EVENT_AUTHORIZED, TEK_EVENT_COMPLETE};
use questions::limits::SAIDS_MAX;

// A machine for a listed SAID, before Authorized is delivered to it.
fn fresh_tek(d: Descriptor) -> Tek
    ensures { result ≡ fresh_tek_of d }
{
    Tek {
        said: d.said,
        suite: d.suite,
        ..no_tek()
    }
}

#[tactic(auto, unfolding(crate::specs::Relist::emptied))]
fn emptied(w: Progress) -> Progress
    requires { Ready w.modem }
    ensures { (result ≡ emptied w) × Ready result.modem }
{
    Progress {
        modem: Modem {
            used: 0,
            teks: [no_tek(); SAIDS_MAX],
            ..w.modem
        },
        ..w
    }
}

// A machine that has taken a step goes to the next free slot.
#[tactic(auto, unfolding(crate::specs::Relist::appended))]
fn appended(w: Progress, s: TekStep) -> Progress
    requires { Ready w.modem }
    ensures { (result ≡ appended w s) × Ready result.modem }
{
    let mut modem = w.modem;
    if SAIDS_MAX <= modem.used {
        return w;
    }
    modem.teks[modem.used] = s.machine;
    modem.used += 1;
    modem.counter = s.counter;
    Progress {
        modem,
        out: w.out.with_message(s.sends),
    }
}

// A machine takes an event and goes to the next free slot.
fn joined(w: Progress, t: Tek, event: u8) -> Progress
    requires { Ready w.modem }
    ensures { (result ≡ joined_of w t event) × Ready result.modem }
{
    let none = no_params();
    let s = t.step(event, tek_context(w.modem), none, none);
    appended(w, s)
}

// The machine in slot `i` of the modem before, where it survives.
#[tactic(auto, unfolding(crate::specs::Relist::kept_one_of, crate::specs::Relist::kept_if_of))]
fn kept_one(w: Progress, f: Fields, old: Modem, i: usize) -> Progress
    requires { (i < 4) × Ready w.modem }
    ensures { (result ≡ kept_one_of f old w i) × Ready result.modem }
{
    let t = old.teks[i];
    if survives(i < old.used, f, t.said, t.suite, t.state) {
        joined(w, t, TEK_EVENT_COMPLETE)
    } else {
        w
    }
}

// Descriptor `i` gets a machine, where no slot holds its SAID.
#[tactic(auto, unfolding(crate::specs::Relist::started_one_of, crate::specs::Relist::started_if_of))]
fn started_one(w: Progress, f: Fields, i: usize) -> Progress
    requires { (i < 4) × Ready w.modem }
    ensures { (result ≡ started_one_of f w i) × Ready result.modem }
{
    let d = f.descriptors[i];
    if (i < f.count) & (NO_SLOT <= slot_of_said(w.modem, d.said)) {
        joined(w, fresh_tek(d), TEK_EVENT_AUTHORIZED)
    } else {
        w
    }
}

#[tactic(auto, unfolding(crate::specs::Relist::started_to))]
fn started_all(w: Progress, f: Fields) -> Progress
    requires { Ready w.modem }
    ensures { (result ≡ started_to 4 f w) × Ready result.modem }
{
    let mut after = w;
    for i in 0..SAIDS_MAX {
        after = started_one(after, f, i);
    }
    after
}

// Auth Wait to Authorized: all machines are made anew.
#[tactic(auto, unfolding(crate::specs::Relist::listed_anew_of))]
pub fn listed_anew(w: Progress, f: Fields) -> Progress
    requires { Ready w.modem }
    ensures { (result ≡ listed_anew_of f w) × Ready result.modem }
{
    started_all(emptied(w), f)
}

// Reauth Wait to Authorized: the machines that survive, in slot order, then the new.
#[tactic(auto, unfolding(crate::specs::Relist::relisted, crate::specs::Relist::kept_to))]
pub fn relisted(w: Progress, f: Fields) -> Progress
    requires { Ready w.modem }
    ensures { (result ≡ relisted f w) × Ready result.modem }
{
    let mut kept = emptied(w);
    for i in 0..SAIDS_MAX {
        kept = kept_one(kept, f, w.modem, i);
    }
    started_all(kept, f)
}
