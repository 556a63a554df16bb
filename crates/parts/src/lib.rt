// Parts of a list that was cut: plain mathematics, no code.
#![tactic(auto)]
