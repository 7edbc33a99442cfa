// Specs and proofs only: what is true of every fibre end.
#![tactic(auto)]
