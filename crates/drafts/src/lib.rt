// Halfway through lists that are judged: what stands for a number that is not lent, definitions and their laws.
#![tactic(auto)]

// What stands for a number that is not lent.
pub const UNLENT: u8 = 255;
