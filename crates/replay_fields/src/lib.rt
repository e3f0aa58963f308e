// The fields of a line of text: where they stand (specs/Fields.antt, specs/Places.antt), numbers, octets in hexadecimal digits, and pairs of a SAID
// and a suite (specs/Listing.antt).

#![tactic(auto)]

pub mod fields;
pub mod listing;
pub mod octets;
