// One record judged: its fault, or where the reading stands after it.
#![tactic(auto)]

ghost use Rattle.std.specs.Prelude.{◌≡◌, ℕ, ◌≤◌, ◌<◌};
ghost use Rattle.tables.specs.Tables.{seed_of_lem};
ghost use Rattle.tables.specs.Rows.{count_column};
ghost use Rattle.judging.specs.Faults.{action_fault_lem, condition_fault_lem, task_fault_lem, seed_fault_lem, times_fault_lem, present_fault_lem, crew_fault_lem};
ghost use Rattle.advancing.specs.Steps.{after_action, after_condition, after_task, after_seed, after_times, after_present, after_crew, unless_fault, out_by_lem};

use judging::faults;

// Where the reading stands: the place to read on from, how many variables, actions, tasks of the crew and crews with their seed
// were read, the variables that an action changes or a condition names, as a set of bits, the kind of the last record, the
// variable of the last action, the least variable that its next condition may name, how many conditions it has, and the
// situation. The order is one that the compiler takes apart: in most others it keeps the struct in memory, and reading costs more.
#[derive(Clone, Copy)]
pub struct Progress {
    pub above: u8,
    pub situation: u8,
    pub crews: usize,
    pub vars: usize,
    pub actions: usize,
    pub last: u8,
    pub own: u8,
    pub many: u8,
    pub at: usize,
    pub used: u64,
    pub tasks: usize,
}

// What one record leads to.
#[derive(Clone, Copy)]
pub enum Step {
    On(Progress),
    Refused { number: u8, place: usize },
    Done(Progress),
}

// A seed, from its four bytes.
pub fn seed_of(a: u8, b: u8, c: u8, d: u8) -> u64
    ensures { result ≡ seed_of_lem a b c d }
{
    (((a as u64) * 256 + (b as u64)) * 256 + (c as u64)) * 256 + (d as u64)
}

// Judges a seed: its fault, or where the reading stands after it.
pub fn judge_seed(p: Progress, n: u64, next: usize) -> Step
    requires { p.crews < 8 }
    ensures { result ≡ unless_fault (seed_fault_lem n) p (after_seed p next) }
{
    let fault = faults::seed_fault(n);
    if fault != 0 {
        return Step::Refused {
            number: fault,
            place: p.at,
        };
    }
    Step::On(Progress {
        at: next,
        situation: p.situation,
        vars: p.vars,
        actions: p.actions,
        tasks: p.tasks,
        last: 5,
        own: p.own,
        above: p.above,
        many: p.many,
        crews: p.crews + 1,
        used: p.used,
    })
}

// Opens the next crew.
pub fn on_crew(p: Progress, next: usize) -> Step
    ensures { result ≡ unless_fault (crew_fault_lem p.crews) p (after_crew p next) }
{
    let fault = faults::crew_fault(p.crews);
    if fault != 0 {
        return Step::Refused {
            number: fault,
            place: p.at,
        };
    }
    Step::On(Progress {
        at: next,
        situation: p.situation,
        vars: p.vars,
        actions: p.actions,
        tasks: 0,
        last: 9,
        own: p.own,
        above: p.above,
        many: p.many,
        crews: p.crews,
        used: p.used,
    })
}

// A task is judged, and stays in the file.
pub fn on_task(p: Progress, v: u8, start: u8, goal: u8, next: usize, rows: &[[u8; 3]; 32]) -> Step
    requires { p.vars ≤ 32 }
    ensures { result ≡ unless_fault (task_fault_lem (count_column rows.now) p.vars p.tasks v start goal) p (after_task p next) }
{
    let fault = faults::task_fault(rows, p.vars, p.tasks, v, start, goal);
    if fault != 0 {
        return Step::Refused {
            number: fault,
            place: p.at,
        };
    }
    Step::On(Progress {
        at: next,
        situation: p.situation,
        vars: p.vars,
        actions: p.actions,
        tasks: p.tasks + 1,
        last: 4,
        own: p.own,
        above: p.above,
        many: p.many,
        crews: p.crews,
        used: p.used,
    })
}

// Judges a condition: its fault, or where the reading stands after it.
pub fn judge_condition(p: Progress, v: u8, q: u8, next: usize, rows: &[[u8; 3]; 32]) -> Step
    requires { (p.vars ≤ 32) × (p.many ≤ 32) }
    ensures { result ≡ unless_fault (condition_fault_lem (count_column rows.now) p.vars p.own p.above v q) p (after_condition p v next) }
{
    let fault = faults::condition_fault(rows, p.vars, p.own, p.above, v, q);
    if fault != 0 {
        return Step::Refused {
            number: fault,
            place: p.at,
        };
    }
    Step::On(Progress {
        at: next,
        situation: p.situation,
        vars: p.vars,
        actions: p.actions,
        tasks: p.tasks,
        last: 3,
        own: p.own,
        above: v + 1,
        many: p.many + 1,
        crews: p.crews,
        used: bits::mark(p.used, v),
    })
}

// Judges an action: its fault, or where the reading stands after it.
pub fn judge_action(
    p: Progress,
    v: u8,
    pre: u8,
    post: u8,
    next: usize,
    rows: &[[u8; 3]; 32],
) -> Step
    requires { p.vars ≤ 32 }
    ensures { result ≡ unless_fault (action_fault_lem (count_column rows.now) p.vars p.actions v pre post) p (after_action p v next) }
{
    let fault = faults::action_fault(rows, p.vars, p.actions, v, pre, post);
    if fault != 0 {
        return Step::Refused {
            number: fault,
            place: p.at,
        };
    }
    Step::On(Progress {
        at: next,
        situation: p.situation,
        vars: p.vars,
        actions: p.actions + 1,
        tasks: p.tasks,
        last: 2,
        own: v,
        above: 0,
        many: 0,
        crews: p.crews,
        used: bits::mark(p.used, v),
    })
}

// Judges the situations of an action: their fault, or where the reading stands after them.
pub fn judge_times(p: Progress, n: u8, next: usize) -> Step
    ensures { result ≡ unless_fault (times_fault_lem n) p (after_times p next) }
{
    let fault = faults::times_fault(n);
    if fault != 0 {
        return Step::Refused {
            number: fault,
            place: p.at,
        };
    }
    Step::On(Progress {
        at: next,
        situation: p.situation,
        vars: p.vars,
        actions: p.actions,
        tasks: p.tasks,
        last: 7,
        own: p.own,
        above: p.above,
        many: p.many,
        crews: p.crews,
        used: p.used,
    })
}

// What an action's row has more where a set of situations puts it out of force.
pub fn out_by(n: u8, situation: u8) -> u8
    requires { situation ≤ 7 }
    ensures { (result ≡ out_by_lem n situation) × (result ≤ 64) }
{
    if bits::holds(n as u64, situation) {
        return 0;
    }
    64
}

pub fn on_present(p: Progress, n: u8, next: usize) -> Step
    ensures { result ≡ unless_fault (present_fault_lem n) p (after_present p n next) }
{
    let fault = faults::present_fault(n);
    if fault != 0 {
        return Step::Refused {
            number: fault,
            place: p.at,
        };
    }
    Step::On(Progress {
        at: next,
        situation: n,
        vars: p.vars,
        actions: p.actions,
        tasks: p.tasks,
        last: 8,
        own: p.own,
        above: p.above,
        many: p.many,
        crews: p.crews,
        used: p.used,
    })
}
