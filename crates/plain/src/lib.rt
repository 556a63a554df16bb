// Plain mathematics that every crate's definitions share: no code.
#![tactic(auto)]
