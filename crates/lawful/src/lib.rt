// Lawful studies: what every file that loads obeys. Definitions and the theorem, no code.
#![tactic(auto)]
