// Question 1 of the modem's state.
ghost use Rattle.std.specs.Prelude.{◌≡◌, ◌<◌, take};
ghost use Rattle.message_rules.specs.Messages.{different};
ghost use Rattle.modem_limits.specs.Limits.{timer_fits_of, authorization_fits_of, key_zero_of, pair_held_fits_of, longest_wait_of, tek_fits_of, tek_zero_of, slot_fits_of, saids_of_teks, modem_fits_of};

use key_traffic::numbers::KEY_NUMBER_MAX;
use key_traffic::octets::zero_past;
use key_traffic::suites::{suite_known, width};
use key_traffic::traffic::{TrafficKey, is_within, pair_fits};
use modem_authorization::authorization::Authorization;
use modem_steps::state::Modem;
use modem_tek::parts::{HELD, NOT_HELD, Pair};
use modem_tek::tek::Tek;
use modem_transitions::states::{
    AUTH_SILENT, AUTH_START, STATE_MAX, TEK_OP_WAIT, TEK_OPERATIONAL, TEK_REKEY_WAIT, TEK_START,
};
use modem_transitions::timer::{OFF, ON, Timer};
use questions::apart::all_apart;
use questions::limits::{
    ADDRESS_BOUND, AK_REPLY_LIFE_MAX, CLOCK_MAX, SAID_MAX, SAIDS_MAX, TEK_LIFE_MAX,
};
use questions::settings::{Waits, settings_fit};

#[tactic(auto, unfolding(crate::specs::Limits::timer_fits_of))]
fn timer_fits(must: bool, clock: u64, ahead: u64, t: Timer) -> bool
    ensures { result ≡ timer_fits_of must clock ahead t }
{
    if must {
        (t.on == ON) & is_within(t.at, clock, ahead)
    } else {
        (t.on == OFF) & (t.at == 0)
    }
}

#[tactic(auto, unfolding(crate::specs::Limits::authorization_fits_of))]
fn authorization_fits(clock: u64, a: Authorization) -> bool
    ensures { result ≡ authorization_fits_of clock a }
{
    let must = !((a.state == AUTH_START) | (a.state == AUTH_SILENT));
    (a.state <= STATE_MAX)
        & (a.ak.0 <= KEY_NUMBER_MAX)
        & timer_fits(must, clock, AK_REPLY_LIFE_MAX, a.timer)
}

fn key_zero(k: TrafficKey) -> bool
    ensures { result ≡ key_zero_of k }
{
    let tek = k.tek;
    let vector = k.vector;
    (k.number.0 == 0) & (k.deadline == 0) & zero_past(tek, 0) & zero_past(vector, 0)
}

#[tactic(auto, unfolding(crate::specs::Limits::pair_held_fits_of))]
fn pair_held_fits(must: bool, w: usize, clock: u64, p: Pair) -> bool
    ensures { result ≡ pair_held_fits_of must w clock p }
{
    if must {
        (p.held == HELD) & pair_fits(p.older, p.newer, w, clock)
    } else {
        (p.held == NOT_HELD) & key_zero(p.older) & key_zero(p.newer)
    }
}

#[tactic(auto, unfolding(crate::specs::Limits::longest_wait_of))]
fn longest_wait(w: Waits, state: u8) -> u64
    ensures { result ≡ longest_wait_of w state }
{
    match state {
        TEK_OP_WAIT => w.operational,
        TEK_REKEY_WAIT => w.rekey,
        _ => TEK_LIFE_MAX,
    }
}

#[tactic(auto, unfolding(crate::specs::Limits::tek_fits_of))]
fn tek_fits(w: Waits, clock: u64, t: Tek) -> bool
    ensures { result ≡ tek_fits_of w clock t }
{
    let must = (t.state == TEK_OP_WAIT)
        | (t.state == TEK_OPERATIONAL)
        | (t.state == TEK_REKEY_WAIT);
    (t.said <= SAID_MAX)
        & suite_known(t.suite)
        & (t.state <= STATE_MAX)
        & timer_fits(must, clock, longest_wait(w, t.state), t.timer)
        & pair_held_fits(TEK_OPERATIONAL <= t.state, width(t.suite), clock, t.pair)
}

#[tactic(auto, unfolding(crate::specs::Limits::tek_zero_of))]
fn tek_zero(t: Tek) -> bool
    ensures { result ≡ tek_zero_of t }
{
    (t.said == 0)
        & (t.suite == 0)
        & (t.state == TEK_START)
        & (t.identifier == 0)
        & timer_fits(false, 0, 0, t.timer)
        & pair_held_fits(false, 0, 0, t.pair)
}

#[tactic(auto, unfolding(crate::specs::Limits::slot_fits_of))]
fn slot_fits(m: Modem, i: usize) -> bool
    requires { i < 4 }
    ensures { result ≡ slot_fits_of m i }
{
    if i < m.used {
        tek_fits(m.settings.waits, m.clock, m.teks[i])
    } else {
        tek_zero(m.teks[i])
    }
}

// Each by its place: `all_apart` takes four SAIDs.
fn saids_differ(n: usize, teks: [Tek; SAIDS_MAX]) -> bool
    ensures { result ≡ different (saids_of_teks (take n teks)) }
{
    all_apart(n, teks[0].said, teks[1].said, teks[2].said, teks[3].said)
}

// Question 1 of all that a modem holds.
pub fn modem_fits(m: Modem) -> bool
    ensures { result ≡ modem_fits_of m }
{
    let teks = m.teks;
    settings_fit(m.settings)
        & (m.clock <= CLOCK_MAX)
        & (m.address < ADDRESS_BOUND)
        & (m.said <= SAID_MAX)
        & authorization_fits(m.clock, m.authorization)
        & (m.used <= SAIDS_MAX)
        & (0..SAIDS_MAX).all(|i| slot_fits(m, i))
        & saids_differ(m.used, teks)
}
