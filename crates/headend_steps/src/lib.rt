// What a listing, the clock and a message do at the head-end, on values: the questions in document 01's order, the state after, and for a message the
// octets of the answer in a lent slice. Each contract equates the result with a definition of specs/Listing.antt, Clock.antt or Receive.antt. Crate
// `headend_calls` has the calls, over lent records; `headend_frames` has frames.

#![tactic(auto)]

pub mod clock;
pub mod listing;
pub mod receive;
