// What replaying an access log answers, and what it means for the occupant: definitions and their laws, no code.
#![tactic(auto)]
