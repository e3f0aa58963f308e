// HMAC-SHA-1 (RFC 2104) with a key of any length over a message of any length or a part of a slice, which is not copied: `hmac`. And a digest
// that stands in the slice it covers: compared, with no early end, and stored: `digest`. Contracts go by specs/Hmac.antt. `exported` is for
// outside/bench.

#![tactic(auto)]

pub mod digest;
pub mod exported;
pub mod hmac;
mod keys;
