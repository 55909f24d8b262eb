//! Worked rows: small scripts with the outcome that the definitions of `semantics` give each cell, computed. specs/Sample.antt has
//! the words that they are written in, proofs/ the rows, by topic. There is no code here.
#![tactic(auto)]
