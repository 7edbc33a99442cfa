// Specs and proofs only: the alternating bit of the OAM channel, over plain bits and numbers.
#![tactic(auto)]
