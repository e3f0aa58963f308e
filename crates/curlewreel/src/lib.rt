// What C firmware links: exported functions on numbers, byte slices, both ends' states by value and the head-end's records as a lent slice, all with
// the prefix `curlewreel_`. Each asks its own questions and has no `requires`; its contract fixes the answer, the state, every record and every lent
// octet, for refused input too, by specs/; proofs/Contracts.antt writes out the ends' calls. What they hand back is made by value in
// `modem_values`, `headend_values` and `receiver`. include/curlewreel.h declares them.

#![tactic(auto)]

pub mod frame;
pub mod headend;
pub mod headend_values;
pub mod modem;
pub mod modem_values;
pub mod read;
pub mod receiver;
pub mod words;
pub mod write;
