// The head-end's calls: new, list, clock, receive, and on frames seal, open, seal_frame, open_frame. Each asks its questions in document 01's order and has no
// `requires`; its contract equates the answer, the state, every record and every lent octet with a definition of specs/Calls.antt or of
// headend_frames/specs/FrameCalls.antt. Their theorems stand in proofs/: limits kept, nothing changed by a refusal, what is minted, what is answered and read back, frames.

#![tactic(auto)]

pub mod calls;
pub mod frames;
