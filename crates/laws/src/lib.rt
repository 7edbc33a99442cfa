// Specs and proofs only: what every crate may need of bools, lists and tests, and nothing of ends or frames.
#![tactic(auto)]
