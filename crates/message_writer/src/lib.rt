// The writer of BPKM messages, all nine codes, into a lent slice (document 01, "Messages"): question 1 of the fields and 2 of the AUTH-Key
// (`limits`, by specs/Limits.antt of `message_rules`), and the message, put together of `message_parts`: its attributes (`message`), and then the head
// with Length and the digest (`whole`). `write::write` has no `requires`.

#![tactic(auto)]

pub mod limits;
mod message;
mod whole;
pub mod write;
