// No code: cases A to O as a table in specs/, and the statement over it in proofs/.
#![tactic(auto)]
