// What the questions promise together, with no code: proofs/Whole.antt is the file to read first.

#![tactic(auto)]
