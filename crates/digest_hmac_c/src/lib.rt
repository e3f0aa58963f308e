// The comparison of a digest alone for C, which the benchmark measures: no part of the header. `digest_hmac` has the call.

#![tactic(auto)]

ghost use Rattle.std.specs.Prelude.{◌≡◌};
ghost use Rattle.digest_hmac.specs.Hmac as spec;

use digest_hmac::exported;

// Whether the 20 octets from `at` on are the HMAC of the octets before `upto`; false where these are not all in the message.
#[unsafe(no_mangle)]
pub extern "C" fn digest_hmac_holds(message: &[u8], upto: usize, key: &[u8], at: usize) -> bool
    ensures { result ≡ spec.holds_within message.now upto key.now at }
{
    exported::digest_hmac_holds(message, upto, key, at)
}
