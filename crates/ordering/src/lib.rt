// What comes directly before each walk action of at most 64, by rank, as bits of words.
#![tactic(auto)]

ghost use Rattle.std.specs.Prelude.{◌≡◌, ℕ, ◌≤◌, ◌<◌, length, get_or};
ghost use Rattle.study.specs.Study.{Study};
ghost use Rattle.tables.specs.Rows.{start_column};
ghost use Rattle.marking.specs.Marking.{Ranked};
ghost use Rattle.ordering.specs.Ordering.{OrderableIn, OrdersAll};
ghost use Rattle.ordering.specs.Marking.{Surveyed, OrdersWanted, Turn, OrdersOne};

use tables::Act;
use wanting::Off;

// Passes the conditions of one action: puts the ranks of the actions that set what it wants into the word that begins as
// `first`, and its own rank before those that leave it. Refuses the first condition that is off its variable's walk, by the
// variable.
fn order_wanted(
    file: &[u8],
    act: Act,
    first: u64,
    rank: u8,
    ranks: &[u8],
    vars: &[[u8; 3]; 32],
    setters: &[u8; 512],
    steps: &[u16; 512],
    before: &mut [u64; 64],
) -> Result<u64, u8>
    requires { (length before.old ≡ 64) × Ranked ranks.now
        × ((t : Study) × (i : ℕ) × Surveyed file.now act.place act.many rank ranks.now (start_column vars.now) setters.now steps.now t i) }
    ensures before_len { length before.new ≡ 64 }
    ensures orders_wanted { (t : Study) (i : ℕ)
        → Surveyed file.now act.place act.many rank ranks.now (start_column vars.now) setters.now steps.now t i
        → OrdersWanted t i rank ranks.now steps.now before.old before.new first result }
{
    let mut word = first;
    for k in 0..act.many {
        let at = act.place + 3 * usize::from(k);
        let u = file[at + 1];
        let q = file[at + 2];
        let v = usize::from(u);
        let j = 16 * v + usize::from(q);
        let step = steps[j];
        if step == 0 {
            return Err(u);
        }
        marking::put_before(step, rank, ranks, before);
        let var = tables::variable_at(vars, v);
        word = marking::with_setter(word, q, var.start, j, ranks, setters);
    }
    Ok(word)
}

// Orders one walk action, which leaves the value at index j, against those that set what it wants or leaves, and those that
// leave what it wants.
fn order_one(
    file: &[u8],
    act: Act,
    j: usize,
    rank: u8,
    ranks: &[u8],
    vars: &[[u8; 3]; 32],
    setters: &[u8; 512],
    steps: &[u16; 512],
    before: &mut [u64; 64],
) -> Result<(), u8>
    requires { (length before.old ≡ 64) × Ranked ranks.now
        × ((t : Study) × (i : ℕ) × Turn file.now act j rank ranks.now (start_column vars.now) setters.now steps.now t i) }
    ensures before_len { length before.new ≡ 64 }
    ensures orders_one { (t : Study) (i : ℕ)
        → Turn file.now act j rank ranks.now (start_column vars.now) setters.now steps.now t i
        → OrdersOne t i ranks.now steps.now before.old before.new result }
{
    let var = tables::variable_at(vars, usize::from(act.var));
    let first = marking::with_setter(0, act.pre, var.start, j, ranks, setters);
    let word = order_wanted(file, act, first, rank, ranks, vars, setters, steps, before)?;
    let r = usize::from(rank);
    before[r] = bits::joined(before[r], word);
    Ok(())
}

// Orders the actions that their step names: those on walks. Answers their ranks.
pub fn order_all(
    file: &[u8],
    ranks: &[u8],
    actions: usize,
    acts: &[[u8; 6]; 256],
    vars: &[[u8; 3]; 32],
    setters: &[u8; 512],
    steps: &[u16; 512],
    before: &mut [u64; 64],
) -> Result<u64, Off>
    requires { (length before.old ≡ 64) × (actions ≤ 64) × (length ranks.now ≡ actions) × ((i : ℕ) → i < actions → get_or ranks.now i 0 < 64)
        × ((t : Study) × OrderableIn file.now actions acts.now vars.now setters.now steps.now t) }
    ensures before_len { length before.new ≡ 64 }
    ensures orders_all { (t : Study)
        → OrderableIn file.now actions acts.now vars.now setters.now steps.now t
        → ((i j : ℕ) → i < actions → j < actions → get_or ranks.now i 0 ≡ get_or ranks.now j 0 → i ≡ j)
        → ((j : ℕ) → get_or before.old j 0 ≡ 0)
        → OrdersAll t ranks.now before.new result }
{
    let mut members = 0u64;
    for i in 0..actions {
        let act = tables::action_at(acts, i);
        let j = 16 * usize::from(act.var) + usize::from(act.pre);
        if steps[j] == (i + 2) as u16 {
            let rank = ranks[i];
            members = bits::with_bit(members, rank);
            if let Err(var) = order_one(file, act, j, rank, ranks, vars, setters, steps, before) {
                return Err(Off { action: i, var });
            }
        }
    }
    Ok(members)
}
