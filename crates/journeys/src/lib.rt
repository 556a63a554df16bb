// What making the journeys of a crew's plan answers: definitions and theorems, no code.
#![tactic(auto)]
