// An association: a SAID with its suite and the two traffic keys that the head-end holds for it. Its functions are on one record by value:
// minting, a listing's record, the clock's rule (`roll::rolled`), the limits, and what a search looks for. Each contract equates the result
// with a definition of specs/. Crate `key_records` has the functions over slices of records.

#![tactic(auto)]

pub mod listing;
pub mod mint;
pub mod record;
pub mod roll;
pub mod search;
