// The TEK machine of one SAID, by value: what its step is put together of (specs/TekParts.antt) and the step, `Tek::step`, which hands the machine
// back with the Identifier counter and the message that it sends (specs/Tek.antt).

#![tactic(auto)]

pub mod parts;
pub mod tek;
