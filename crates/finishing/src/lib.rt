// Runs a list of actions on the study that the tables hold.
#![tactic(auto)]

mod ends;

ghost use Rattle.std.specs.Prelude.{◌≡◌, List, ℕ, Ok};
ghost use Rattle.study.specs.Study.{Study};
ghost use Rattle.runs.specs.Run.{RunAllows};
ghost use Rattle.tables.specs.Tables.{Loads};
ghost use Rattle.tables.specs.Rows.{start_column, seen_all, Begins};
ghost use Rattle.barring.specs.Telling.{Prepared};
ghost use Rattle.finishing.specs.Finishing.{Ends};

use answer::{Answer, Rule};
use tables::Loaded;

// Does the whole list and holds its end to the goal. The start state is the current one to begin with, and each step alters it.
fn run_from(
    file: &[u8],
    plan: &[u8],
    n: usize,
    actions: usize,
    acts: &[[u8; 6]; 256],
    vars: &[[u8; 3]; 32],
    current: &mut [u8; 32],
) -> Result<(), Answer>
    requires { ((t : Study) × Prepared file.now n actions acts.now vars.now t) × Begins n (start_column vars.now) current.old }
    ensures { (t : Study)
        → Prepared file.now n actions acts.now vars.now t
        → Ends t plan.now current.new result }
{
    stepping::do_steps(file, plan, n, actions, acts, current)?;
    if let Some(v) = ends::away(n, current, vars) {
        return Err(Rule::AwayFromGoal.refusal(v as u64));
    }
    Ok(())
}

// Runs the list on what was loaded for a crew. Answer 0 gives the number of variables and writes the end state; a refusal alters nothing.
pub fn run_loaded(
    file: &[u8],
    plan: &[u8],
    loaded: Loaded,
    acts: &[[u8; 6]; 256],
    vars: &[[u8; 3]; 32],
    state: &mut [u8],
) -> Answer
    requires { (crew : ℕ) × (setters : List ℕ) × Loads file.now crew (seen_all acts.now vars.now setters) (Ok loaded) }
    ensures { (crew : ℕ) (setters : List ℕ)
        → Loads file.now crew (seen_all acts.now vars.now setters) (Ok loaded)
        → RunAllows file.now crew plan.now state.old result state.new }
{
    let n = loaded.vars;
    if state.len() < n {
        return Rule::NoRoom.refusal(n as u64);
    }
    let mut current = [0u8; 32];
    tables::set_out(n, vars, &mut current);
    let ran = run_from(file, plan, n, loaded.actions, acts, vars, &mut current);
    if let Err(answer) = ran {
        return answer;
    }
    state[..n].copy_from_slice(&current[..n]);
    Answer::done(n as u64, 0)
}
