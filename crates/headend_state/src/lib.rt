// The head-end's state by value: its clock and settings, the modems' entries, and their authorization keys. What is made and found is defined in
// specs/State.antt, specs/Entries.antt and specs/Authorization.antt, and each contract equates the result with a definition there.

#![tactic(auto)]

pub mod authorization;
pub mod entries;
pub mod state;
