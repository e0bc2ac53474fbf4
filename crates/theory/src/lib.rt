// No code: definitions in specs/, theorems in proofs/.
#![tactic(auto)]
