// The labels of a table replaced, and its trees put in another order: definitions in specs/, theorems in proofs/.
#![tactic(auto)]
