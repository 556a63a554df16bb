// Plans in the sense of the SAS definitions, and straight plans: definitions and their laws, no code.
#![tactic(auto)]
