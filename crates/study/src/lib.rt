// What a study file says: definitions and their laws, no code.
#![tactic(auto)]
