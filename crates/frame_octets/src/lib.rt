// The octets of a frame under a traffic key of suite 768 (document 02, M-103), for either end: specs/Framed.antt has what is asked of a frame and what
// sealing and opening give.

#![tactic(auto)]

pub mod framed;
