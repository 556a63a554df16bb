// What rides and journeys mean: definitions and theorems of lists and floors, nothing of files, no code.
#![tactic(auto)]
