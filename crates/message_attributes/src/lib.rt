// Attributes in octets: the reader struct that holds a slice and a place (`reader::Attributes`), over covered code on the slice and the place,
// whose answer is defined in specs/Next.antt, with document 01's number and values of it; and the octets of numbers and keys, by definitions of
// `message_rules`.

#![tactic(auto)]

pub mod attribute;
pub mod octets;
pub mod reader;
