// The digest of a message, as specs/Digest.antt says: whether it holds under a message key, and its octets stored in a message that is written.
// specs/Written.antt has what the writer's call writes; proofs/ what is written under a key and read back, and what is read and written again.

#![tactic(auto)]

pub mod digest;
