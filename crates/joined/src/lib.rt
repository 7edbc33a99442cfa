// Specs only: what two ends joined by two lines are, whatever kind of ends they are, and what their hosts do.
#![tactic(auto)]
