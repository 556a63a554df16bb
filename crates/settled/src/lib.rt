// What each public contract allows, and that two results it allows are equal: definitions and theorems, no code.
#![tactic(auto)]
