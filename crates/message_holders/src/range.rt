// The slot that each required type fills, and each type's length and range (document 01, Messages; question 8).
ghost use Rattle.std.specs.Prelude.{◌≡◌, ◌<◌};
ghost use Rattle.message_rules.specs.Ranges.{longest_life_of, fits};
ghost use Rattle.message_holders.specs.Slots.{body_slot_of, inside_slot_of};

use crate::slots::{
    INSIDE_KEY_LIFETIME, INSIDE_KEY_NUMBER, INSIDE_NOT_REQUIRED, INSIDE_SA_TYPE, INSIDE_SAID,
    INSIDE_SUITE, INSIDE_TEK, INSIDE_VECTOR, SLOT_AUTH_KEY, SLOT_COMPOUND, SLOT_DIGEST, SLOT_ERROR,
    SLOT_KEY_LIFETIME, SLOT_KEY_NUMBER, SLOT_NOT_REQUIRED, SLOT_SAID,
};
use key_traffic::numbers::KEY_NUMBER_MAX;
use key_traffic::suites::{suite_known, width_known};
use message_attributes::octets::{be16_of, be32_of, octet};
use message_rules::codes::{
    AUTH_KEY_OCTETS_MAX, AUTH_KEY_OCTETS_MIN, DIGEST_OCTETS, LIFE_MIN, SA_TYPE_MAX, TYPE_AUTH_KEY,
    TYPE_DIGEST, TYPE_ERROR, TYPE_KEY_LIFETIME, TYPE_KEY_NUMBER, TYPE_SA_TYPE, TYPE_SAID,
    TYPE_SUITE, TYPE_TEK, TYPE_TEK_PARAMETERS, TYPE_VECTOR,
};
use message_rules::required::is_required;
use questions::limits::{AK_REPLY_LIFE_MAX, SAID_MAX, TEK_LIFE_MAX};

// The slot of a required type of a body; SLOT_COMPOUND for a compound, SLOT_NOT_REQUIRED for a type that is not required.
pub fn body_slot(h: u8, k: u8) -> usize
    requires { h < 13 }
    ensures { result ≡ body_slot_of h k }
{
    if !is_required(h, k) {
        return SLOT_NOT_REQUIRED;
    }
    match k {
        TYPE_KEY_NUMBER => SLOT_KEY_NUMBER,
        TYPE_SAID => SLOT_SAID,
        TYPE_KEY_LIFETIME => SLOT_KEY_LIFETIME,
        TYPE_ERROR => SLOT_ERROR,
        TYPE_AUTH_KEY => SLOT_AUTH_KEY,
        TYPE_DIGEST => SLOT_DIGEST,
        _ => SLOT_COMPOUND,
    }
}

// The slot of a required type inside TEK-Parameters (13) or an SA-Descriptor (23); INSIDE_NOT_REQUIRED for a type that is not required.
pub fn inside_slot(h: u8, k: u8) -> usize
    ensures { result ≡ inside_slot_of h k }
{
    if h == TYPE_TEK_PARAMETERS {
        return match k {
            TYPE_TEK => INSIDE_TEK,
            TYPE_KEY_LIFETIME => INSIDE_KEY_LIFETIME,
            TYPE_KEY_NUMBER => INSIDE_KEY_NUMBER,
            TYPE_VECTOR => INSIDE_VECTOR,
            _ => INSIDE_NOT_REQUIRED,
        };
    }
    match k {
        TYPE_SAID => INSIDE_SAID,
        TYPE_SA_TYPE => INSIDE_SA_TYPE,
        TYPE_SUITE => INSIDE_SUITE,
        _ => INSIDE_NOT_REQUIRED,
    }
}

fn longest_life(h: u8) -> u64
    ensures { result ≡ longest_life_of h }
{
    if h == TYPE_TEK_PARAMETERS {
        TEK_LIFE_MAX
    } else {
        AK_REPLY_LIFE_MAX
    }
}

// Whether a value has the length and the range of its type.
pub fn in_range(h: u8, k: u8, v: &[u8]) -> bool
    ensures { result ≡ fits h k v.now }
{
    match k {
        TYPE_AUTH_KEY => (AUTH_KEY_OCTETS_MIN <= v.len()) & (v.len() <= AUTH_KEY_OCTETS_MAX),
        TYPE_TEK | TYPE_VECTOR => width_known(v.len()),
        TYPE_KEY_LIFETIME => {
            let life = be32_of(v);
            (v.len() == 4) & (LIFE_MIN <= life) & (life <= longest_life(h))
        }
        TYPE_KEY_NUMBER => (v.len() == 1) & (octet(v, 0) <= KEY_NUMBER_MAX),
        TYPE_DIGEST => v.len() == DIGEST_OCTETS,
        TYPE_SAID => (v.len() == 2) & (be16_of(v) <= SAID_MAX),
        TYPE_ERROR => v.len() == 1,
        TYPE_SUITE => (v.len() == 2) & suite_known(be16_of(v)),
        TYPE_SA_TYPE => (v.len() == 1) & (octet(v, 0) <= SA_TYPE_MAX),
        _ => true,
    }
}
