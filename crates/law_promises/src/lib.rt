// The promises about whole tapes, in one place: no code.
#![tactic(auto)]
