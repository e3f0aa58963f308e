// The edges of document 01 that bear a P, as one table: specs/Edges.antt has a row for each, proofs/Edges.antt proves them.

#![tactic(auto)]
