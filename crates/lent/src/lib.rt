// No code: what every call that is lent memory answers and leaves, and the order of refusals, in specs/; their laws in proofs/.
#![tactic(auto)]
