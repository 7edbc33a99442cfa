// Specs and proofs only: two ends joined by lines, and what document 01 demands of them.
#![tactic(auto)]
