// The modem's calls but for frames, which stand in `modem_frames`. Each asks its questions in document 01's order and has no `requires`; its contract
// equates the answer, the state and every lent octet with a definition of specs/Calls.antt.

#![tactic(auto)]

pub mod calls;
pub mod messages;
