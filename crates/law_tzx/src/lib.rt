// Theory alone: what TZX 1.20 gives one piece is in specs/, where the source reading keeps to it in proofs/.
#![tactic(auto)]
