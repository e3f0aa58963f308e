// The modem's state by value, and what an event of either machine, a due timer and the clock with all its timers do to it. Each contract equates
// the result with a definition of specs/. What a message does stands in `modem_receive`, the calls in `modem_calls` and `modem_frames`.

#![tactic(auto)]

pub mod clock;
pub mod machine;
pub mod slots;
pub mod state;
pub mod timers;
