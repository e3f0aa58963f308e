// Question 1 of the modem's state: the contract of `limits::modem_fits` equates the answer with `modem_fits_of` of specs/Limits.antt.

#![tactic(auto)]

pub mod limits;
