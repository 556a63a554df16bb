// Orders joined by exchanges of neighbours: plain mathematics, no code.
#![tactic(auto)]
