// What the modem's two machines share: both matrices as constant tables, states and events by name, timers, and the Identifier of a new
// request. Each contract equates the result with a definition of specs/, where the matrices are document 01's lists of transitions.

#![tactic(auto)]

pub mod identifier;
pub mod states;
pub mod timer;
pub mod transitions;
