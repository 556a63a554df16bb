// What one crew has of a file that was read: its tasks entered, and its seed.
#![tactic(auto)]

ghost use Rattle.std.specs.Prelude.{◌≡◌, ◌+◌, ◌*◌, ◌≤◌, length};
ghost use Rattle.study.specs.Study.{Crew};
ghost use Rattle.tables.specs.Tables.{HoldsTasks, HoldsCrew, seed_at_lem};
ghost use Rattle.tables.specs.Rows.{count_column, start_column, goal_column};

// Enters the tasks of a crew, which stand in the file from a place on.
pub fn enter_tasks(file: &[u8], place: usize, n: usize, vars: &mut [[u8; 3]; 32])
    requires { (n ≤ 32) × (place + 4 * n ≤ length file.now) × (length vars.old ≡ 32) }
    ensures vars_len { (length vars.new ≡ 32) × (count_column vars.new ≡ count_column vars.old) }
    ensures holds_tasks { (k : Crew)
        → HoldsCrew file.now place n k
        → HoldsTasks n (start_column vars.new) (goal_column vars.new) k.tasks }
{
    for v in 0..n {
        let row = vars[v];
        let at = place + 4 * v;
        vars[v] = [row[0], file[at + 2], file[at + 3]];
    }
}

// The seed of the record at a place.
pub fn seed_at(file: &[u8], at: usize) -> u64
    requires { at + 5 ≤ length file.now }
    ensures { result ≡ seed_at_lem file.now at }
{
    advancing::seed_of(file[at + 1], file[at + 2], file[at + 3], file[at + 4])
}
