// Walks, traced from the goal value back.
#![tactic(auto)]

ghost use Rattle.std.specs.Prelude.{◌≡◌, ℕ, ◌+◌, ◌≤◌, ◌<◌, length};
ghost use Rattle.study.specs.Study.{Study};
ghost use Rattle.walks.specs.Walks.{start_of, goal_of};
ghost use Rattle.tables.specs.Rows.{start_column, goal_column};
ghost use Rattle.tracing.specs.Facts.{MovesIn, Tells};
ghost use Rattle.tracing.specs.Steps.{SetterIs, told, value_of, Traces, EmptyRow, WalksAll};

// A trace's number where it came round; where it broke off, this much more than the value that no action in force sets. The
// recursion hands a number on, since it is a loop only as a tail call: with a Result planning took 11 to 13 % longer and 528
// bytes more of stack.
const ROUND: u8 = 255;

const BREAKS: u8 = 32;

// Told of a trace that comes round, in place of a value.
const CAME_ROUND: u8 = 255;

// Where a trace breaks off: at a value that no action in force sets; or nowhere, since it comes round.
#[derive(Clone, Copy, Debug, PartialEq, Eq)]
pub enum Break {
    At(u8),
    Round,
}

// The lowest variable that has no walk, and where its trace breaks off.
#[derive(Clone, Copy, Debug, PartialEq, Eq)]
pub struct NoWalk {
    pub var: usize,
    pub breaks: Break,
}

impl Break {
    // What an answer tells of it.
    pub fn value(self) -> u8
        ensures { result ≡ value_of self }
    {
        match self {
            Break::At(value) => value,
            Break::Round => CAME_ROUND,
        }
    }
}

// The action in force that sets a variable to a value.
pub fn setter(
    setters: &[u8; 512],
    acts: &[[u8; 6]; 256],
    actions: usize,
    v: usize,
    q: u8,
) -> Option<usize>
    requires { (v < 32) × (q < 16) × (actions ≤ 256) }
    ensures { (t : Study) → MovesIn actions setters.now acts.now t → SetterIs t v q result }
{
    let i = tables::wide(setters[16 * v + tables::wide(q)]);
    if actions <= i {
        return None;
    }
    if tables::sets_to(acts, i, v as u8, q) {
        return Some(i);
    }
    None
}

// Traces variable v from value q back to its start, and enters in steps, for each value that the trace comes to, 2 more
// than the action that leaves it. Answers how many actions the walk has, `passed` of them before, or where it broke off, or
// that it came round, as a number, which a loop can hand on; `outcome` says what the number means. At most left more values
// may be passed.
fn trace(
    v: usize,
    start: u8,
    q: u8,
    left: u8,
    passed: u8,
    actions: usize,
    setters: &[u8; 512],
    acts: &[[u8; 6]; 256],
    steps: &mut [u16; 512],
) -> u8
    requires { (v < 32) × (q < 16) × (left + passed < 32) × (length steps.old ≡ 512)
        × ((t : Study) × MovesIn actions setters.now acts.now t) }
    ensures steps_len { (length steps.new ≡ 512) × (result < 32 → result ≤ left + passed) }
    ensures traces { (t : Study)
        → MovesIn actions setters.now acts.now t
        → start_of t v ≡ start
        → Traces t v q left passed steps.old steps.new (told result) }
{
    if q == start {
        return passed;
    }
    if left == 0 {
        return ROUND;
    }
    let Some(i) = setter(setters, acts, actions, v, q) else {
        return BREAKS + q;
    };
    let act = tables::action_at(acts, i);
    steps[16 * v + tables::wide(act.pre)] = (i + 2) as u16;
    trace(
        v,
        start,
        act.pre,
        left - 1,
        passed + 1,
        actions,
        setters,
        acts,
        steps,
    )
}

// What a trace's number says.
fn outcome(number: u8) -> Result<u8, Break>
    ensures { result ≡ told number }
{
    if number < BREAKS {
        return Ok(number);
    }
    if number == ROUND {
        return Err(Break::Round);
    }
    Err(Break::At(number - BREAKS))
}

// Enters every variable's walk. Answers how many actions they have together.
pub fn walk_all(
    n: usize,
    actions: usize,
    acts: &[[u8; 6]; 256],
    vars: &[[u8; 3]; 32],
    setters: &[u8; 512],
    steps: &mut [u16; 512],
) -> Result<usize, NoWalk>
    requires { (length steps.old ≡ 512)
        × ((t : Study)
        × MovesIn actions setters.now acts.now t
        × (n ≡ length t.tasks)
        × Tells start_of n (start_column vars.now) t
        × Tells goal_of n (goal_column vars.now) t) }
    ensures steps_len { length steps.new ≡ 512 }
    ensures walks_all { (t : Study)
        → MovesIn actions setters.now acts.now t
        → n ≡ length t.tasks
        → Tells start_of n (start_column vars.now) t
        → Tells goal_of n (goal_column vars.now) t
        → ((v : ℕ) → v < 32 → EmptyRow v steps.old)
        → WalksAll t n steps.new result }
{
    let mut total = 0;
    for v in 0..n {
        let var = tables::variable_at(vars, v);
        steps[16 * v + tables::wide(var.goal)] = 1;
        let number = trace(v, var.start, var.goal, 16, 0, actions, setters, acts, steps);
        match outcome(number) {
            Ok(many) => total += tables::wide(many),
            Err(breaks) => return Err(NoWalk { var: v, breaks }),
        }
    }
    Ok(total)
}
