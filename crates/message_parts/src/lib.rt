// The parts of a message in octets: lengths, and attributes and compounds stored into a lent slice behind the head, with the length so far handed on.
// What is stored is said by specs/Parts.antt and specs/Put.antt, and by `Put` of `key_traffic` where it is octets alone.

#![tactic(auto)]

pub mod lengths;
pub mod put;
