// Specs only: two records joined, and demand 3 in bytes and replies.
#![tactic(auto)]
