// Where the reading stands: that tables and place answer to what a file says. Definitions and their laws, no code.
#![tactic(auto)]
