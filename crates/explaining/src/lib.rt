// The facts that explain each refusal of planning, found in what was loaded.
#![tactic(auto)]

ghost use Rattle.std.specs.Prelude.{◌≡◌, List, ℕ, ◌≤◌, ◌<◌, length, take};
ghost use Rattle.study.specs.Study.{Study};
ghost use Rattle.walks.specs.Walks.{Walks, Met};
ghost use Rattle.planning.specs.Planning.{LowestOff};
ghost use Rattle.stages.specs.Whole.{KnownIn};
ghost use Rattle.explained.specs.Facts.{Fact as Facts·Fact, rows_of};
ghost use Rattle.explained.specs.Refusals.{TracedFromGoal, WalkedPast};
ghost use Rattle.explained.specs.Rings.{Stuck, Circled};

use facts::Fact;

// Refusal 10: variable v has no walk.
pub fn why_broken(
    v: usize,
    actions: usize,
    acts: &[[u8; 6]; 256],
    vars: &[[u8; 3]; 32],
    setters: &[u8; 512],
    facts: &mut [Fact; 288],
) -> usize
    requires { (length facts.old ≡ 288)
        × ((t : Study) × (file : List ℕ) × (n x : ℕ) × KnownIn file n actions x acts.now vars.now setters.now t × (v < length t.tasks)) }
    ensures upper_bound { (result ≤ 288) × (length facts.new ≡ 288) }
    ensures by_index { (file : List ℕ) (n x : ℕ) (t : Study)
        → KnownIn file n actions x acts.now vars.now setters.now t
        → v < length t.tasks
        → (list : List Facts·Fact) × (TracedFromGoal t v list × (take result facts.new ≡ rows_of list)) }
{
    let var = tables::variable_at(vars, v);
    finding::trace_back(v as u8, var.goal, actions, acts, setters, facts)
}

// Refusal 11: every variable has a walk, and action i wants variable u at a value off it.
pub fn why_off(
    file: &[u8],
    i: usize,
    u: usize,
    n: usize,
    actions: usize,
    acts: &[[u8; 6]; 256],
    vars: &[[u8; 3]; 32],
    setters: &[u8; 512],
    facts: &mut [Fact; 288],
) -> usize
    requires { (length facts.old ≡ 288)
        × ((t : Study) × (x : ℕ) × KnownIn file.now n actions x acts.now vars.now setters.now t × Walks t × LowestOff t i u) }
    ensures upper_bound { (result ≤ 288) × (length facts.new ≡ 288) }
    ensures by_index { (x : ℕ) (t : Study)
        → KnownIn file.now n actions x acts.now vars.now setters.now t
        → Walks t
        → LowestOff t i u
        → (list : List Facts·Fact) × (WalkedPast t i u list × (take result facts.new ≡ rows_of list)) }
{
    let mut steps = [0u16; 512];
    // every variable has a walk, so nothing is refused
    let _ = tracing::walk_all(n, actions, acts, vars, setters, &mut steps);
    let act = tables::action_at(acts, i);
    let var = tables::variable_at(vars, u);
    let value = finding::wanted_value(file, act.place, act.many, u as u8);
    finding::walk_past(i as u8, u as u8, value, var.start, acts, &steps, facts)
}

// Refusal 12: every variable has a walk, every condition is on it, and there is a ring.
pub fn why_ringed(
    file: &[u8],
    n: usize,
    actions: usize,
    acts: &[[u8; 6]; 256],
    vars: &[[u8; 3]; 32],
    setters: &[u8; 512],
    facts: &mut [Fact; 288],
) -> usize
    requires { (length facts.old ≡ 288)
        × ((t : Study) × (x i : ℕ) × KnownIn file.now n actions x acts.now vars.now setters.now t × Walks t × Met t × Stuck t i) }
    ensures upper_bound { (result ≤ 288) × (length facts.new ≡ 288) }
    ensures by_index { (x i : ℕ) (t : Study)
        → KnownIn file.now n actions x acts.now vars.now setters.now t
        → Walks t
        → Met t
        → Stuck t i
        → (list : List Facts·Fact) × (Circled t list × (take result facts.new ≡ rows_of list)) }
{
    let mut steps = [0u16; 512];
    let walked = tracing::walk_all(n, actions, acts, vars, setters, &mut steps);
    let Ok(total) = walked else {
        return 0;
    };
    let mut left = [0u64; 4];
    stranding::left_over(file, n, actions, total, acts, vars, &steps, &mut left);
    let mut wanters = [[0u64; 4]; 512];
    wanters::note_all(file, actions, &left, acts, &mut wanters);
    circling::ring(file, acts, vars, setters, &wanters, &left, facts)
}
