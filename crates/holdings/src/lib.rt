#![tactic(auto)]
// The index of held trees: definitions in specs/, theorems in proofs/.
