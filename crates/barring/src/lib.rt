// What keeps an action from being done in a state: the first variable that is not at the value asked of it, and that value.
#![tactic(auto)]

ghost use Rattle.std.specs.Prelude.{◌≡◌, List, ℕ, ◌+◌, ◌*◌, ◌≤◌, ◌<◌, length, get_or};
ghost use Rattle.study.specs.Study.{Condition, Action};
ghost use Rattle.tables.specs.Tables.{HoldsConditions};
ghost use Rattle.replays.specs.Replay.{unmet, lacks};
ghost use Rattle.barring.specs.Stances.{stance_of};
ghost use Rattle.barring.specs.Telling.{Tells};

use tables::Act;

// A value of a variable.
#[derive(Clone, Copy)]
pub struct Want {
    pub var: u8,
    pub value: u8,
}

// The first of the conditions that stand in the file from a place on which does not hold. Each takes 3 bytes: its kind,
// variable and value.
fn failing(file: &[u8], place: usize, many: usize, state: &[u8; 32]) -> Option<Want>
    requires { (place + 3 * many ≤ length file.now) × ((k : ℕ) → k < many → get_or file.now (place + 3 * k + 1) 0 < 32) }
    ensures { (conditions : List Condition) → HoldsConditions file.now place many conditions → result ≡ stance_of (unmet state.now conditions) }
{
    for k in 0..many {
        let at = place + 3 * k;
        let var = file[at + 1];
        let value = file[at + 2];
        if state[tables::wide(var)] != value {
            return Some(Want { var, value });
        }
    }
    None
}

// The action's own variable if it is not at pre, else that of the first condition that fails, and the value asked of it; nothing
// where the action may be done.
pub fn barred(file: &[u8], act: Act, state: &[u8; 32]) -> Option<Want>
    requires { (a : Action) × Tells file.now act a }
    ensures { (a : Action) → Tells file.now act a → result ≡ stance_of (lacks state.now a) }
{
    let value = state[tables::wide(act.var)];
    if value != act.pre {
        return Some(Want {
            var: act.var,
            value: act.pre,
        });
    }
    failing(file, act.place, tables::wide(act.many), state)
}
