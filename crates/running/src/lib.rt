// Runs a given list of actions on a study file, for one of its crews.
#![tactic(auto)]

ghost use Rattle.runs.specs.Run.{RunAllows};

use answer::Answer;

// Answer 0 gives the number of variables and writes the end state; a refusal alters nothing.
pub fn run(file: &[u8], crew: u64, plan: &[u8], state: &mut [u8]) -> Answer
    ensures { RunAllows file.now crew plan.now state.old result state.new }
{
    let mut acts = [[0u8; 6]; 256];
    let mut vars = [[0u8; 3]; 32];
    let mut setters = [0u8; 512];
    match mustering::load_for(file, crew, &mut acts, &mut vars, &mut setters) {
        Ok(loaded) => finishing::run_loaded(file, plan, loaded, &acts, &vars, state),
        Err(refusal) => Answer::from(refusal),
    }
}
