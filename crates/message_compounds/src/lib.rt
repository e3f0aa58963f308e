// What a message's compounds hold: the insides of TEK-Parameters and SA-Descriptors, each handed on as a part of the slice. Each contract equates the result
// with a definition of specs/Compounds.antt; the laws in proofs/ join these to the definitions of crate `message_rules`.

#![tactic(auto)]

pub mod compound;
