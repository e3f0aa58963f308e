// A call applied to both ends and the records by value: which of demand 3's steps it is (specs/Steps.antt), what it gives out (specs/Gave.antt)
// and what applying it hands back (specs/Applied.antt). `apply::apply` gives demand 3's definition of that step, with every lent octet; `clock` has the call
// that reaches both ends, `headend_side` and `modem_side` those that reach one, `held` the head-end's calls on an array of records.

#![tactic(auto)]

pub mod apply;
pub mod clock;
pub mod ends;
pub mod headend_side;
pub mod held;
pub mod modem_side;
