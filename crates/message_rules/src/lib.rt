// BPKM messages, all nine codes: what the reader hands back and the writer takes. The definitions of both stand in specs/, and the theorems that
// join them in proofs/. `message_reader` and `message_writer` have the code; here are the types, fields that carry nothing, the numbers by name, and
// which attributes are required.

#![tactic(auto)]

pub mod codes;
pub mod fields;
pub mod required;
