// Charts: what a list that keeps one is, when one is accepted, and what checking one answers.
#![tactic(auto)]
