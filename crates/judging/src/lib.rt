// Judges a record of a study file: whether its kind may come, and which of the faults 4 to 6 it has.
#![tactic(auto)]

pub mod faults;
pub mod order;
