// What the modem asks of a message's fields, and what a message that is taken does.
ghost use Rattle.std.specs.Prelude.{◌≡◌, ◌<◌, true};
ghost use Rattle.modem_steps.specs.State.{Ready};
ghost use Rattle.modem_steps.specs.Slots.{slot_of_said_of};
ghost use Rattle.modem_receive.specs.Receive.{of_said_of, params_wide, widths_fit_of, said_known_of, auth_waits, tek_waits, identifier_fits_of, digest_holds_of, Takeable, received};

use crate::events::{invalidated, rejected};
use key_traffic::suites::width;
use message_rules::codes::{
    CODE_AUTHORIZATION_INVALID, CODE_AUTHORIZATION_REJECT, CODE_AUTHORIZATION_REPLY,
    CODE_KEY_REJECT, CODE_KEY_REPLY, CODE_TEK_INVALID, UNSOLICITED,
};
use message_rules::fields::{Fields, Params};
use modem_reply::replied::replied;
use modem_steps::slots::{NO_SLOT, is_asking, slot_asking, slot_of_said};
use modem_steps::state::{Modem, Progress, start};
use modem_transitions::states::{
    AUTH_REAUTH_WAIT, AUTH_WAIT, TEK_EVENT_INVALID, TEK_EVENT_KEY_REJECT, TEK_EVENT_KEY_REPLY,
};

// Key Reply, Key Reject and TEK Invalid are about one SAID.
fn is_of_said(code: u8) -> bool
    ensures { result ≡ of_said_of code }
{
    match code {
        CODE_KEY_REPLY | CODE_KEY_REJECT | CODE_TEK_INVALID => true,
        _ => false,
    }
}

fn are_wide(w: usize, p: Params) -> bool
    ensures { result ≡ params_wide w p }
{
    (p.tek.width == w) & (p.vector.width == w)
}

// Question 9: the widths of the SAID's suite, where it is known.
#[tactic(auto, unfolding(crate::specs::Receive::widths_fit_of))]
pub fn widths_fit(m: Modem, f: Fields) -> bool
    ensures { result ≡ widths_fit_of m f }
{
    let i = slot_of_said(m, f.said);
    if (f.code != CODE_KEY_REPLY) | (NO_SLOT <= i) {
        return true;
    }
    let w = width(m.teks[i].suite);
    are_wide(w, f.older) & are_wide(w, f.newer)
}

// Question 10: a message that names a SAID names one that has a slot.
#[tactic(auto, unfolding(crate::specs::Receive::said_known_of))]
pub fn said_known(m: Modem, f: Fields) -> bool
    ensures { result ≡ said_known_of m f }
{
    !is_of_said(f.code) | (slot_of_said(m, f.said) < NO_SLOT)
}

fn is_auth_waiting(m: Modem, identifier: u8) -> bool
    ensures { result ≡ auth_waits m identifier }
{
    ((m.authorization.state == AUTH_WAIT) | (m.authorization.state == AUTH_REAUTH_WAIT))
        & (m.authorization.identifier == identifier)
}

// Whether the TEK machine of a SAID that has a slot waits for an answer with this Identifier.
fn is_tek_waiting(m: Modem, said: u16, identifier: u8) -> bool
    requires { slot_of_said_of m said < 4 }
    ensures { result ≡ tek_waits m said identifier }
{
    is_asking(m.teks[slot_of_said(m, said)], identifier)
}

// Question 11: the Identifier is that of the request that waits, or UNSOLICITED where none may.
#[tactic(auto, unfolding(crate::specs::Receive::identifier_fits_of))]
pub fn identifier_fits(m: Modem, f: Fields) -> bool
    requires { said_known_of m f ≡ true }
    ensures { result ≡ identifier_fits_of m f }
{
    match f.code {
        CODE_AUTHORIZATION_REPLY | CODE_AUTHORIZATION_REJECT => is_auth_waiting(m, f.identifier),
        CODE_KEY_REPLY | CODE_KEY_REJECT => is_tek_waiting(m, f.said, f.identifier),
        CODE_AUTHORIZATION_INVALID => {
            (f.identifier == UNSOLICITED) | (slot_asking(m, f.identifier) < NO_SLOT)
        }
        _ => f.identifier == UNSOLICITED,
    }
}

// Question 12: where the message carries a digest, it holds.
#[tactic(auto, unfolding(crate::specs::Receive::digest_holds_of))]
pub fn digest_holds(digest: bool, f: Fields) -> bool
    ensures { result ≡ digest_holds_of digest f }
{
    !is_of_said(f.code) | digest
}

// A message that is taken. Its fields are within the limits of a reading, and of 8, 9 and 11 the SAID is known.
#[tactic(auto, unfolding(crate::specs::Receive::received))]
pub fn received(m: Modem, f: Fields) -> Progress
    requires { Ready m × Takeable m f }
    ensures { result ≡ received m f }
{
    let i = slot_of_said(m, f.said);
    match f.code {
        CODE_AUTHORIZATION_REPLY => replied(m, f),
        CODE_AUTHORIZATION_REJECT => rejected(m, f.error),
        CODE_KEY_REPLY => start(m).deliver_reply(i, TEK_EVENT_KEY_REPLY, f.older, f.newer),
        CODE_KEY_REJECT => start(m).deliver(i, TEK_EVENT_KEY_REJECT),
        CODE_AUTHORIZATION_INVALID => invalidated(m, f.identifier),
        _ => start(m).deliver(i, TEK_EVENT_INVALID),
    }
}
