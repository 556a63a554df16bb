// The lowest direct order between walk actions that is not in rows of bits.
#![tactic(auto)]

ghost use Rattle.std.specs.Prelude.{◌≡◌, ℕ, ◌≤◌, ◌<◌, length};
ghost use Rattle.study.specs.Study.{Study};
ghost use Rattle.walks.specs.Walks.{Met};
ghost use Rattle.tables.specs.Rows.{start_column};
ghost use Rattle.tracing.specs.Steps.{Rowed};
ghost use Rattle.wanting.specs.Wanting.{StandAt};
ghost use Rattle.ordering.specs.Ordering.{OrderableIn};
ghost use Rattle.lacking.specs.Lacking.{Lacks, Weighs, Just, SetBefore, LeftAfter, OfConditions, OfAction};

use tables::Act;

// The two, if they are lower and the second is not in the first's row.
fn weighed(best: Option<(u8, u8)>, x: u8, y: u8, rows: &[[u64; 4]; 256]) -> Option<(u8, u8)>
    ensures { Weighs rows.now (Just x y) best result }
{
    match best {
        Some(two) if two <= (x, y) => best,
        _ if bits::contains(&rows[tables::wide(x)], y) => best,
        _ => Some((x, y)),
    }
}

// Weighs the action that sets a value against one that needs it, unless the value is the start.
fn weigh_setter(
    best: Option<(u8, u8)>,
    q: u8,
    start: u8,
    setter: u8,
    i: u8,
    rows: &[[u64; 4]; 256],
) -> Option<(u8, u8)>
    ensures { Weighs rows.now (SetBefore q start setter i) best result }
{
    if q == start {
        return best;
    }
    weighed(best, setter, i, rows)
}

// Weighs one that needs a value against the action that leaves it, if the step names one.
#[tactic(auto, using(crate::proofs::Weighing::leaver_weighed, crate::proofs::Weighing::end_passed))]
fn weigh_leaver(
    best: Option<(u8, u8)>,
    i: u8,
    step: u16,
    rows: &[[u64; 4]; 256],
) -> Option<(u8, u8)>
    requires { step < 258 }
    ensures { Weighs rows.now (LeftAfter i step) best result }
{
    if 2 <= step {
        return weighed(best, i, (step - 2) as u8, rows);
    }
    best
}

// Does both for each condition of action i.
fn weigh_wanted(
    file: &[u8],
    act: Act,
    i: u8,
    from: Option<(u8, u8)>,
    vars: &[[u8; 3]; 32],
    setters: &[u8; 512],
    steps: &[u16; 512],
    rows: &[[u64; 4]; 256],
) -> Option<(u8, u8)>
    requires { (t : Study) × (j : ℕ) × StandAt file.now act.place act.many t j × Rowed t (length t.tasks) steps.now }
    ensures { Weighs rows.now
        (OfConditions file.now (start_column vars.now) setters.now steps.now
        act.place act.many i) from result }
{
    let mut best = from;
    for k in 0..act.many {
        let at = act.place + 3 * (k as usize);
        let q = file[at + 2];
        let v = tables::wide(file[at + 1]);
        let j = 16 * v + tables::wide(q);
        let var = tables::variable_at(vars, v);
        let set = weigh_setter(best, q, var.start, setters[j], i, rows);
        best = weigh_leaver(set, i, steps[j], rows);
    }
    best
}

// Weighs all orders that action i tells: that of what it leaves, and those of its conditions.
fn weigh_action(
    file: &[u8],
    act: Act,
    i: u8,
    best: Option<(u8, u8)>,
    vars: &[[u8; 3]; 32],
    setters: &[u8; 512],
    steps: &[u16; 512],
    rows: &[[u64; 4]; 256],
) -> Option<(u8, u8)>
    requires { (act.var < 32) × (act.pre < 16)
        × ((t : Study) × (j : ℕ) × StandAt file.now act.place act.many t j × Rowed t (length t.tasks) steps.now) }
    ensures { Weighs rows.now
        (OfAction file.now (start_column vars.now) setters.now steps.now
        act.var act.pre act.place act.many i) best result }
{
    let v = tables::wide(act.var);
    let var = tables::variable_at(vars, v);
    let setter = setters[16 * v + tables::wide(act.pre)];
    let set = weigh_setter(best, act.pre, var.start, setter, i, rows);
    weigh_wanted(file, act, i, set, vars, setters, steps, rows)
}

// Every walk action has its conditions on walks. Those that their step names are the walk actions.
pub fn lowest(
    file: &[u8],
    actions: usize,
    acts: &[[u8; 6]; 256],
    vars: &[[u8; 3]; 32],
    setters: &[u8; 512],
    steps: &[u16; 512],
    rows: &[[u64; 4]; 256],
) -> Option<(u8, u8)>
    requires { (t : Study) × OrderableIn file.now actions acts.now vars.now setters.now steps.now t }
    ensures { (t : Study)
        → OrderableIn file.now actions acts.now vars.now setters.now steps.now t
        → Met t
        → Lacks t rows.now result }
{
    let mut best = None;
    for i in 0..actions {
        let act = tables::action_at(acts, i);
        let j = 16 * tables::wide(act.var) + tables::wide(act.pre);
        if steps[j] == (i + 2) as u16 {
            best = weigh_action(file, act, i as u8, best, vars, setters, steps, rows);
        }
    }
    best
}
