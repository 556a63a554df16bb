// What planning answers, and the theorems about it: definitions and their laws, no code.
#![tactic(auto)]
