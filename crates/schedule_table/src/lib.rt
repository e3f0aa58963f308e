// The table of the schedule program (document 01, "Edges"): the text of its input and rows (specs/Schedule.antt), and all of it, streamed through a
// lent slice of any length from 256 on. What `start` writes and then what repeated calls of `fill` write is all that the program prints
// (proofs/PrintLaws.antt, `whole`).

#![tactic(auto)]

pub mod input;
pub mod print;
pub mod row;
