// Holders of attributes: the range of a value, and the one pass over a message's body or a compound's inside (specs/Slots.antt, specs/Pass.antt),
// turn by turn of the attribute reader (specs/Turn.antt). The laws in proofs/ join these to the definitions of `message_rules`; `slots` has the
// slots by name.

#![tactic(auto)]

pub mod body;
pub mod inside;
pub mod pass;
pub mod range;
pub mod slots;
