// Document 01's worked cases that are marked *, proved together as one table: definitions and their laws, no code.
#![tactic(auto)]
