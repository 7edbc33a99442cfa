// Specs and proofs only: blocks carried as messages, whatever carries these.
#![tactic(auto)]
