// Specs and proofs only: what a record is, and what is true of it.
#![tactic(auto)]
