// Which attributes each holder requires (document 01, "Messages": "Needed").
ghost use Rattle.std.specs.Prelude.{◌≡◌};
ghost use Rattle.message_rules.specs.Ranges.{is_required_of};

use crate::codes::{
    CODE_AUTHORIZATION_INVALID, CODE_AUTHORIZATION_REJECT, CODE_AUTHORIZATION_REPLY,
    CODE_AUTHORIZATION_REQUEST, CODE_KEY_REJECT, CODE_KEY_REPLY, CODE_KEY_REQUEST,
    CODE_TEK_INVALID, TYPE_AUTH_KEY, TYPE_DIGEST, TYPE_ERROR, TYPE_KEY_LIFETIME, TYPE_KEY_NUMBER,
    TYPE_SA_DESCRIPTOR, TYPE_SA_TYPE, TYPE_SAID, TYPE_SUITE, TYPE_TEK, TYPE_TEK_PARAMETERS,
    TYPE_VECTOR,
};

// Whether a holder, a message's code or 13 or 23 for the inside of a compound, requires a type.
pub fn is_required(h: u8, k: u8) -> bool
    ensures { result ≡ is_required_of h k }
{
    match h {
        CODE_AUTHORIZATION_REQUEST => TYPE_SAID == k,
        CODE_AUTHORIZATION_REPLY => {
            (TYPE_AUTH_KEY == k)
                | (TYPE_KEY_LIFETIME == k)
                | (TYPE_KEY_NUMBER == k)
                | (TYPE_SA_DESCRIPTOR == k)
        }
        CODE_AUTHORIZATION_REJECT | CODE_AUTHORIZATION_INVALID => TYPE_ERROR == k,
        CODE_KEY_REQUEST => (TYPE_KEY_NUMBER == k) | (TYPE_SAID == k) | (TYPE_DIGEST == k),
        CODE_KEY_REPLY => {
            (TYPE_KEY_NUMBER == k)
                | (TYPE_SAID == k)
                | (TYPE_TEK_PARAMETERS == k)
                | (TYPE_DIGEST == k)
        }
        CODE_KEY_REJECT | CODE_TEK_INVALID => {
            (TYPE_KEY_NUMBER == k) | (TYPE_SAID == k) | (TYPE_ERROR == k) | (TYPE_DIGEST == k)
        }
        TYPE_TEK_PARAMETERS => {
            (TYPE_TEK == k) | (TYPE_KEY_LIFETIME == k) | (TYPE_KEY_NUMBER == k) | (TYPE_VECTOR == k)
        }
        TYPE_SA_DESCRIPTOR => (TYPE_SAID == k) | (TYPE_SA_TYPE == k) | (TYPE_SUITE == k),
        _ => false,
    }
}
