// Frames at the modem: questions 13 and 14 of a pair of keys and the counts of frames (specs/FrameRules.antt), and the calls that seal one and
// open one (specs/Frames.antt), and those that seal and open one's octets (specs/OctetFrames.antt). The calls ask their questions in document 01's order and have no `requires`; each contract equates the answer, the state and
// every lent octet with a definition there.

#![tactic(auto)]

pub mod frames;
pub mod octets;
pub mod rules;
