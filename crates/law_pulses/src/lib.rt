// Theory alone: demand 3 over any list of entries, and the source's play: definitions in specs/, theorems in proofs/.
#![tactic(auto)]
