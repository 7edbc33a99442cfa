// Specs and proofs only: bits, and the CRC over any width and generator. The code that works one stands with its frame.
#![tactic(auto)]
