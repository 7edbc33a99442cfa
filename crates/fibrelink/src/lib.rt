// Specs and proofs only: two fibre ends joined by two lines, each with its host, and what is true of every run.
#![tactic(auto)]
