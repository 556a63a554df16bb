// Orders under 'comes before', rings and dictionary order: plain mathematics that knows nothing of files, no code.
#![tactic(auto)]
