// A planner by definitions alone, for any file, whose answer is one that planning allows: definitions and their laws, no code.
#![tactic(auto)]
