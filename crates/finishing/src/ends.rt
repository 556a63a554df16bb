// The end of a run: the end state is held to the goal.
ghost use Rattle.std.specs.Prelude.{◌≡◌, List, ◌≤◌};
ghost use Rattle.study.specs.Study.{Task};
ghost use Rattle.tables.specs.Tables.{HoldsTasks};
ghost use Rattle.tables.specs.Rows.{start_column, goal_column};
ghost use Rattle.runs.specs.Run.{away as Run·away};
ghost use Rattle.finishing.specs.Finishing.{fails_of};

// The lowest variable away from its goal.
pub(crate) fn away(n: usize, state: &[u8; 32], vars: &[[u8; 3]; 32]) -> Option<usize>
    requires { n ≤ 32 }
    ensures { (tasks : List Task)
        → HoldsTasks n (start_column vars.now) (goal_column vars.now) tasks
        → result ≡ fails_of (Run·away state.now 0 tasks) }
{
    for v in 0..n {
        if state[v] != tables::variable_at(vars, v).goal {
            return Some(v);
        }
    }
    None
}
