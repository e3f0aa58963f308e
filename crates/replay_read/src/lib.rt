// The lines of a replay, read from octets without their line feed; numbers are in base ten, octets in lower-case hexadecimal. A line of a call is
// read into a call by value (`calls`, specs/Calls.antt) as `call_of` of specs/Call.antt says; the four lines of the set-up as specs/Setup.antt
// says. The fields of a line are those of `replay_fields`; proofs/Rows.antt has computed lines.

#![tactic(auto)]

pub mod call;
pub mod calls;
mod frame;
pub mod kept;
mod name;
pub mod setup;
