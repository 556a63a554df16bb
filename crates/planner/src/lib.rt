// Plans a study file for one of its crews: with a rank list, or with the list that the crew's seed draws.
#![tactic(auto)]

ghost use Rattle.planning.specs.Planning.{PlanAllows};
ghost use Rattle.planning.specs.Seeded.{SeededAllows};

use answer::Answer;

// Answer 0 gives the plan's length and writes the plan; a refusal alters nothing.
pub fn plan(file: &[u8], crew: u64, ranks: &[u8], plan: &mut [u8]) -> Answer
    ensures { PlanAllows file.now crew ranks.now plan.old result plan.new }
{
    let mut acts = [[0u8; 6]; 256];
    let mut vars = [[0u8; 3]; 32];
    let mut setters = [0u8; 512];
    let loaded = match mustering::load_for(file, crew, &mut acts, &mut vars, &mut setters) {
        Ok(loaded) => loaded,
        Err(refusal) => return Answer::from(refusal),
    };
    if let Err(fault) = ranking::test(ranks, loaded.actions) {
        return handing::unranked(fault, ranks.len());
    }
    stages::plan_loaded(
        file,
        ranks,
        loaded.vars,
        loaded.actions,
        &acts,
        &vars,
        &mut setters,
        plan,
    )
}

// The same with the list that the crew's own seed draws.
pub fn plan_seeded(file: &[u8], crew: u64, plan: &mut [u8]) -> Answer
    ensures { SeededAllows file.now crew plan.old result plan.new }
{
    let mut acts = [[0u8; 6]; 256];
    let mut vars = [[0u8; 3]; 32];
    let mut setters = [0u8; 512];
    let loaded = match mustering::load_for(file, crew, &mut acts, &mut vars, &mut setters) {
        Ok(loaded) => loaded,
        Err(refusal) => return Answer::from(refusal),
    };
    stages::plan_drawn(
        file,
        loaded.seed,
        loaded.vars,
        loaded.actions,
        &acts,
        &vars,
        &mut setters,
        plan,
    )
}
