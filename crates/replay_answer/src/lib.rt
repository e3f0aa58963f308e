// The answer of a call as a line, and the line of the counts of frames, written into a lent slice with their line feed, as specs/Answer.antt says;
// proofs/AnswerRows.antt has computed lines.

#![tactic(auto)]

pub mod answer;
