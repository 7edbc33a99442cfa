// Specs and proofs only: two ends joined, each with a reporting host, and blocks from one to the other.
#![tactic(auto)]
