// What an Authorization Reply does to the modem (specs/Replied.antt): the authorization machine's step, which TEK machines survive it
// (specs/Listed.antt), and which stop and start (specs/Relist.antt). Each contract equates the result with a definition there.

#![tactic(auto)]

pub mod listed;
pub mod relist;
pub mod replied;
