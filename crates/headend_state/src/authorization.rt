// The authorization keys of one modem: which are active, and when one is made.
ghost use Rattle.std.specs.Prelude.{◌≡◌};
ghost use Rattle.headend_state.specs.Authorization.{Countable, is_active_of, keys_for, newest_number, with_key};

use crate::state::AuthKeys;
use key_traffic::numbers::{AkNumber, ak_after};

// Key numbers go round by 16: from the next key's, 15 on is the newer key's, and 14 on the older's.
const ONE_BACK: u8 = 15;

const TWO_BACK: u8 = 14;

// Whether a key of that number is active.
pub fn is_active(clock: u64, k: AuthKeys, number: AkNumber) -> bool
    ensures { result ≡ is_active_of clock number k }
{
    ((clock < k.older) & (ak_after(k.next, TWO_BACK) == number))
        | ((clock < k.newer) & (ak_after(k.next, ONE_BACK) == number))
}

// The number of the newest key.
pub fn newest(k: AuthKeys) -> AkNumber
    ensures { result ≡ newest_number k }
{
    ak_after(k.next, ONE_BACK)
}

// One more key: it gets the next number, and the older of the last two is forgotten.
fn with_key(k: AuthKeys, deadline: u64) -> AuthKeys
    ensures { result ≡ with_key k deadline }
{
    AuthKeys {
        next: ak_after(k.next, 1),
        older: k.newer,
        newer: deadline,
    }
}

// The keys once an Authorization Request is granted: one is made unless two are active.
pub fn granted(life: u64, clock: u64, k: AuthKeys) -> AuthKeys
    requires { Countable life clock k }
    ensures { result ≡ keys_for life clock k }
{
    if clock < k.older {
        k
    } else if clock < k.newer {
        with_key(k, k.newer + life)
    } else {
        with_key(k, clock + life)
    }
}
