// The parts of a step of the TEK machine.
ghost use Rattle.std.specs.Prelude.{◌≡◌, ◌+◌, ◌-◌, ◌≤◌};
ghost use Rattle.modem_tek.specs.TekParts.{sends_into, takes_new, counter_after_of, no_pair_of, key_of, pair_of, nothing};

use key_traffic::numbers::AkNumber;
use key_traffic::traffic::{TrafficKey, no_key};
use message_rules::codes::CODE_NONE;
use message_rules::fields::Params;
use modem_transitions::identifier::next_if;
use modem_transitions::states::{TEK_EVENT_TIMEOUT, TEK_OP_WAIT, TEK_REKEY_WAIT};

// What `held` may be.
pub const NOT_HELD: u8 = 0;

pub const HELD: u8 = 1;

// The pair of a Key Reply; `held` is 0 or 1, and where it is 0 both keys are zero.
#[repr(C)]
#[derive(Clone, Copy)]
pub struct Pair {
    pub held: u8,
    pub older: TrafficKey,
    pub newer: TrafficKey,
}

// The record of a message to go out, a request or Authentication Information; `code` is 0 where nothing is sent, and what the code does not carry is zero.
#[repr(C)]
#[derive(Clone, Copy)]
pub struct Request {
    pub code: u8,
    pub identifier: u8,
    pub ak: AkNumber,
    pub said: u16,
}

// No pair is held.
pub fn no_pair() -> Pair
    ensures { result ≡ no_pair_of }
{
    Pair {
        held: NOT_HELD,
        older: no_key(),
        newer: no_key(),
    }
}

// Nothing is sent.
pub fn no_request() -> Request
    ensures { result ≡ nothing }
{
    Request {
        code: CODE_NONE,
        identifier: 0,
        ak: AkNumber(0),
        said: 0,
    }
}

// A key of a Key Reply, with its deadline at this end.
pub fn key_of(clock: u64, p: Params) -> TrafficKey
    requires { (clock ≤ 1000000000000) × (p.life ≤ 604800) }
    ensures { result ≡ key_of clock p }
{
    // Arrays go by way of a variable: the borrow check does not cover them straight from a field.
    let tek = p.tek.octets;
    let vector = p.vector.octets;
    TrafficKey {
        number: p.number,
        deadline: clock + p.life,
        tek,
        vector,
    }
}

// Both keys of a Key Reply, held.
pub fn pair_of(clock: u64, older: Params, newer: Params) -> Pair
    requires { (clock ≤ 1000000000000) × ((older.life ≤ 604800) × (newer.life ≤ 604800)) }
    ensures { result ≡ pair_of clock older newer }
{
    Pair {
        held: HELD,
        older: key_of(clock, older),
        newer: key_of(clock, newer),
    }
}

// A Key Request goes out on the way into B and E.
pub fn is_sending(to: u8) -> bool
    ensures { result ≡ sends_into to }
{
    (to == TEK_OP_WAIT) | (to == TEK_REKEY_WAIT)
}

// Whether the request takes a new Identifier: one that a timeout sends again keeps its own.
pub fn is_new(event: u8, to: u8) -> bool
    ensures { result ≡ takes_new event to }
{
    is_sending(to) & (event != TEK_EVENT_TIMEOUT)
}

// The Identifier counter after a step into `to`.
#[tactic(auto, unfolding(crate::specs::TekParts::counter_after_of))]
pub fn counter_after(event: u8, to: u8, counter: u8) -> u8
    ensures { result ≡ counter_after_of event to counter }
{
    next_if(is_new(event, to), counter, counter)
}
