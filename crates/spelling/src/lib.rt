// The bytes that lists of variables, actions, tasks and a seed stand for: definitions and their laws, no code.
#![tactic(auto)]
