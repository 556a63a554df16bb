// How varied the plans of so many seeds are: the figures, by counting; plain mathematics, no code.
#![tactic(auto)]
