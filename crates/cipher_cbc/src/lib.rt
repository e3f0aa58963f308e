// CBC with AES-128 and the residual block on frames whose first 12 octets stay clear (document 000, 11.1, I.7 and I.10): `frame::seal_frame` and
// `frame::open_frame`. Contracts go by specs/Cbc.antt. `exported` is for the benchmark and the vectors.

#![tactic(auto)]

pub mod block;
pub mod chaining;
pub mod exported;
pub mod frame;
