// A message at the modem, on values: questions 9 to 12 of its fields, and what one that is taken does (specs/Receive.antt); an Authorization
// Reject and an Authorization Invalid (specs/Events.antt). What an Authorization Reply does is `modem_reply`'s. Each contract equates the result with
// a definition there.

#![tactic(auto)]

pub mod events;
pub mod receive;
