// Checks a study file.
#![tactic(auto)]

ghost use Rattle.checker.specs.Check.{CheckAllows};

use answer::Answer;

// Answer 0 gives how many actions and how many variables.
pub fn check(file: &[u8]) -> Answer
    ensures { CheckAllows file.now result }
{
    let mut acts = [[0u8; 6]; 256];
    let mut vars = [[0u8; 3]; 32];
    let mut setters = [0u8; 512];
    let mut crews = [0u16; 8];
    match loader::load(file, &mut acts, &mut vars, &mut setters, &mut crews) {
        Ok(read) => Answer::done(read.actions as u64, read.vars as u64),
        Err(refusal) => Answer::from(refusal),
    }
}
