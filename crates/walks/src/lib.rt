// Walks and 'comes before', and that straight plans are exactly the orders of the walk actions that keep it: no code.
#![tactic(auto)]
