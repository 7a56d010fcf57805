// What the four questions answer of document 01's pairs worked by hand, what Write answers of its example, and that
// wrong programs cannot meet their promises. There is no code here: the statements stand in specs/, the theorems in
// proofs/.

#![tactic(auto)]
