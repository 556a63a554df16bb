// No code: the mathematics of rank lists is in specs/ and proofs/.
#![tactic(auto)]
