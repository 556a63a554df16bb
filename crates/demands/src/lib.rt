// The three demands over files, and what else is so of every file: theorems about the contracts, no code.
#![tactic(auto)]
