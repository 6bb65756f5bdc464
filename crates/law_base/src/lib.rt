// Theory alone: what several crates cite; definitions are in specs/, laws in proofs/.
#![tactic(auto)]
