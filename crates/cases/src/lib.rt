// Specs only: the proved cases of document 01, "Numbers on the bench".
#![tactic(auto)]
