// Specs and proofs only: what is true of every reporting host.
#![tactic(auto)]
