// Specs and proofs only: long runs of reporting hosts, computed.
#![tactic(auto)]
