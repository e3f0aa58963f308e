// The frame decision on numbers and octets: which of a held pair's keys opens a frame, with its TEK and vector in lent slices. The contract of
// `frame::frame_decision` gives the answer and every lent octet, by specs/Frame.antt. Crate `curlewreel` exports it.

#![tactic(auto)]

pub mod frame;
