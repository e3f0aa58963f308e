// For outside/bench alone, which measures the comparison: no call of the library goes by it.
ghost use Rattle.std.specs.Prelude.{◌≡◌};
ghost use Rattle.digest_hmac.specs.Hmac as spec;

use crate::digest::digest_holds;
use digest_sha1::sizes::DIGEST_OCTETS;

// Whether the 20 octets from `at` on are the HMAC of the octets before `upto`; false where these are not all in the message.
#[unsafe(no_mangle)]
pub extern "C" fn digest_hmac_holds(message: &[u8], upto: usize, key: &[u8], at: usize) -> bool
    ensures { result ≡ spec.holds_within message.now upto key.now at }
{
    if upto <= message.len()
        && DIGEST_OCTETS <= message.len()
        && at <= message.len() - DIGEST_OCTETS
    {
        digest_holds(message, upto, key, at)
    } else {
        false
    }
}
