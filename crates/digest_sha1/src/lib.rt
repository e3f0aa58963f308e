// SHA-1 (FIPS 180-4) of the octets of a slice, of every length; nothing is allocated. `message::sha1` is the hash of a message; `value::initial`,
// `compress::compress` and `message::finish` serve a caller whose message begins with a block of its own. Contracts go by specs/Words.antt (words, functions,
// constants) and specs/Sha1.antt (padding, schedule, rounds, digest).

#![tactic(auto)]

pub mod compress;
pub mod message;
mod pad;
mod schedule;
pub mod sizes;
pub mod value;
mod words;
