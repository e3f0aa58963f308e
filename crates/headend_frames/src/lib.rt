// Frames at the head-end, on values: the questions and counts (specs/FrameQuestions.antt), sealing one for a modem and opening one from it, with what
// the search over the records found. Each contract equates the answer, the state and every lent octet with a definition of specs/Frames.antt, or of specs/OctetFrames.antt for a frame's octets.
// Crate `headend_calls` has the calls, over lent records, as specs/FrameCalls.antt says.

#![tactic(auto)]

pub mod frames;
pub mod octets;
pub mod rules;
