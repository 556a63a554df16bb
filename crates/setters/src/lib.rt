// The table of setters, filled from the rows of the actions once all are read.
#![tactic(auto)]

ghost use Rattle.std.specs.Prelude.{◌≡◌, List, ℕ, ◌≤◌, ◌<◌, length, IfSome};
ghost use Rattle.study.specs.Study.{Action};
ghost use Rattle.tables.specs.Tables.{HoldsActions};
ghost use Rattle.tables.specs.Rows.{seen};
ghost use Rattle.setters.specs.Filling.{Named, Filled};

// Names action i for the value that it sets, and marks the value, unless the action is out of force. Says no, and names
// nothing, where the value is marked: an earlier action in force sets it too.
fn name(i: usize, acts: &[[u8; 6]; 256], setters: &mut [u8; 512], marks: &mut [u16; 32]) -> bool
    requires { i < 256 }
    ensures { (file : List ℕ) (situation n : ℕ) (actions : List Action)
        → HoldsActions file situation n (seen setters.old acts.now) actions
        → i < n
        → length setters.old ≡ 512
        → Named situation actions i setters.old marks.old setters.new marks.new result }
{
    if !tables::in_force(acts, i) {
        return true;
    }
    let act = tables::action_at(acts, i);
    let v = usize::from(act.var) % 32;
    let q = act.post % 16;
    if !marks::insert(marks, v, q) {
        return false;
    }
    setters[16 * v + usize::from(q)] = i as u8;
    true
}

// Names each action, in order, and answers the first that repeats an earlier one.
pub fn fill(n: usize, acts: &[[u8; 6]; 256], setters: &mut [u8; 512]) -> Option<usize>
    requires { n ≤ 256 }
    ensures upper_bound { IfSome result (λ i. i < n) }
    ensures by_index { (file : List ℕ) (situation : ℕ) (actions : List Action)
        → HoldsActions file situation n (seen setters.old acts.now) actions
        → length setters.old ≡ 512
        → Filled situation n actions setters.new result }
{
    let mut marks = [0u16; 32];
    for i in 0..n {
        if !name(i, acts, setters, &mut marks) {
            return Some(i);
        }
    }
    None
}
