// Replays an access log on a study file, for one of its crews.
#![tactic(auto)]

mod leaves;

ghost use Rattle.std.specs.Prelude.{◌≡◌, List, ℕ, Ok};
ghost use Rattle.tables.specs.Tables.{Loads};
ghost use Rattle.tables.specs.Rows.{seen_all};
ghost use Rattle.replays.specs.Replay.{ReplayAllows};

use answer::Answer;
use tables::Loaded;

// Replays the log on what was loaded for a crew. Answer 0 writes the occupant's record; a refusal alters nothing.
fn replay_loaded(
    file: &[u8],
    log: &[u8],
    loaded: Loaded,
    acts: &[[u8; 6]; 256],
    vars: &[[u8; 3]; 32],
    occupant: &mut [u8; 40],
) -> Answer
    requires { (crew : ℕ) × (setters : List ℕ) × Loads file.now crew (seen_all acts.now vars.now setters) (Ok loaded) }
    ensures { (crew : ℕ) (setters : List ℕ)
        → Loads file.now crew (seen_all acts.now vars.now setters) (Ok loaded)
        → ReplayAllows file.now crew log.now occupant.old result occupant.new }
{
    let mut state = [0u8; 32];
    tables::set_out(loaded.vars, vars, &mut state);
    let end = match following::follow(file, log, loaded.actions, acts, &mut state) {
        Ok(end) => end,
        Err(refusal) => return Answer::from(refusal),
    };
    let mut bytes = [0u8; 40];
    leaves::put_state(loaded.vars, &state, &mut bytes);
    leaves::put_end(end.occupant, &mut bytes);
    *occupant = bytes;
    Answer::done(end.done, end.held)
}

// Answer 0 gives how many events were done and held, and the record is the occupant's; a refusal alters nothing.
pub fn replay(file: &[u8], crew: u64, log: &[u8], occupant: &mut [u8; 40]) -> Answer
    ensures { ReplayAllows file.now crew log.now occupant.old result occupant.new }
{
    let mut acts = [[0u8; 6]; 256];
    let mut vars = [[0u8; 3]; 32];
    let mut setters = [0u8; 512];
    match mustering::load_for(file, crew, &mut acts, &mut vars, &mut setters) {
        Ok(loaded) => replay_loaded(file, log, loaded, &acts, &vars, occupant),
        Err(refusal) => Answer::from(refusal),
    }
}
