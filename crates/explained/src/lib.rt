// What an explanation says of a study: mathematics alone.
#![tactic(auto)]
