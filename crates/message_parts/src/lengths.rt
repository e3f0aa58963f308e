// Lengths worked out before writing: of a whole message for question 2, and of a compound's inside, which stands behind its length.
ghost use Rattle.std.specs.Prelude.{◌≤◌, min, ◌≡◌, length, take};
ghost use Rattle.message_rules.specs.Attributes.{octets};
ghost use Rattle.message_rules.specs.Writing.{params_items_of, descriptors_items};
ghost use Rattle.message_parts.specs.Parts.{Writable, BodyLength};

use key_traffic::octets::KEY_OCTETS;
use message_rules::codes::{
    ATTRIBUTE_HEAD_OCTETS, CODE_AUTHORIZATION_INVALID, CODE_AUTHORIZATION_REJECT,
    CODE_AUTHORIZATION_REPLY, CODE_AUTHORIZATION_REQUEST, CODE_KEY_REJECT, CODE_KEY_REPLY,
    CODE_KEY_REQUEST, CODE_TEK_INVALID,
};
use message_rules::fields::{Descriptor, Fields, Params};
use questions::limits::SAIDS_MAX;

// Octets inside TEK-Parameters beside the octets of TEK and vector.
const PARAMS_OTHER_OCTETS: usize = 17;

// Octets inside an SA-Descriptor, and of a whole one.
pub const DESCRIPTOR_INSIDE_OCTETS: usize = 14;

const DESCRIPTOR_OCTETS: usize = 17;

// Octets of the attributes of each message that has always as many.
const AUTHORIZATION_REQUEST_BODY_OCTETS: usize = 5;

const AUTHORIZATION_REJECT_BODY_OCTETS: usize = 4;

const KEY_REQUEST_BODY_OCTETS: usize = 32;

const KEY_REJECT_BODY_OCTETS: usize = 36;

const AUTHORIZATION_INVALID_BODY_OCTETS: usize = 4;

const TEK_INVALID_BODY_OCTETS: usize = 36;

// Octets of life and key number in an Authorization Reply, and those of a Key Reply beside the insides of its two TEK-Parameters.
const LIFE_AND_NUMBER_OCTETS: usize = 11;

const KEY_REPLY_OTHER_OCTETS: usize = 38;

// How many of 16 octets are a key's own.
pub fn own_len(width: usize) -> usize
    ensures { result ≡ min width 16 }
{
    width.min(KEY_OCTETS)
}

// The inside of TEK-Parameters.
pub fn params_len(p: Params) -> usize
    ensures { (result ≡ length (octets (params_items_of p))) × (result ≤ 49) }
{
    PARAMS_OTHER_OCTETS + own_len(p.tek.width) + own_len(p.vector.width)
}

// The first `n` of four SA-Descriptors.
fn descriptors_len(n: usize, ds: [Descriptor; SAIDS_MAX]) -> usize
    ensures { (result ≡ length (octets (descriptors_items (take n ds)))) × (result ≤ 68) }
{
    DESCRIPTOR_OCTETS * n.min(SAIDS_MAX)
}

// The attributes of a message.
pub fn body_len(f: Fields, key: &[u8]) -> usize
    requires { Writable f (length key.now) }
    ensures body_length { BodyLength f key.now result }
    ensures upper_bound { result ≤ 1490 }
{
    match f.code {
        CODE_AUTHORIZATION_REQUEST => AUTHORIZATION_REQUEST_BODY_OCTETS,
        CODE_AUTHORIZATION_REPLY => {
            ATTRIBUTE_HEAD_OCTETS
                + key.len()
                + LIFE_AND_NUMBER_OCTETS
                + descriptors_len(f.count, f.descriptors)
        }
        CODE_AUTHORIZATION_REJECT => AUTHORIZATION_REJECT_BODY_OCTETS,
        CODE_KEY_REQUEST => KEY_REQUEST_BODY_OCTETS,
        CODE_KEY_REPLY => KEY_REPLY_OTHER_OCTETS + params_len(f.older) + params_len(f.newer),
        CODE_KEY_REJECT => KEY_REJECT_BODY_OCTETS,
        CODE_AUTHORIZATION_INVALID => AUTHORIZATION_INVALID_BODY_OCTETS,
        CODE_TEK_INVALID => TEK_INVALID_BODY_OCTETS,
        // Authentication Information has none.
        _ => 0,
    }
}
