// Theory alone: what every load has is in proofs/.
#![tactic(auto)]
