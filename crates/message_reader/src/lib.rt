// The reader of BPKM messages, all nine codes (document 01, "Messages"): `read::read` takes any octets, and its contract equates what it gives with
// `read_of` of crate `message_rules`. What it puts together from the passes over the holders is specs/Taken.antt.

#![tactic(auto)]

pub mod read;
