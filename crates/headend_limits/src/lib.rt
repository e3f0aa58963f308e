// Question 1 at the head-end: the limits of its state and of a listing's fields (specs/Limits.antt), and what the calls look for in the lent records
// (specs/Search.antt). Each contract equates the result with a definition there.

#![tactic(auto)]

pub mod limits;
pub mod search;
