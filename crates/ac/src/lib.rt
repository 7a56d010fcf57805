// The mathematics of the solver, with no code: definitions in specs/, theorems in proofs/.

#![tactic(auto)]
