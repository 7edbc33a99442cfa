// Specs and proofs only: what is true of every end.
#![tactic(auto)]
