// What running a list answers, and that answer 0 means a straight plan: definitions and their laws, no code.
#![tactic(auto)]
