// A report on what was loaded: walks, and what comes before what, once; then the first seed settles it, or each gives a plan.
#![tactic(auto)]

ghost use Rattle.std.specs.Prelude.{◌≡◌, ℕ, ◌+◌, ◌≤◌, ◌<◌, length};
ghost use Rattle.study.specs.Study.{Study};
ghost use Rattle.varied.specs.Report.{Reports};
ghost use Rattle.stages.specs.Whole.{KnownIn};
ghost use Rattle.keeping.specs.Seeds.{InRange};
ghost use Rattle.sampling.specs.Once.{OrderedOnce, CountedOnce};
ghost use Rattle.varying.specs.Entered.{EnteredIn};

use answer::{Answer, Rule};
use keeping::Extent;
use std::ops::ControlFlow;

// Up to so many actions a set of them is one word, and the plans are kept apart from the report.
const FEW: usize = 64;

// Few actions, and what comes before each is known.
fn report_ordered(
    e: Extent,
    members: u64,
    words: &[u64; 64],
    room: &mut [u8; 512],
    report: &mut [u8],
) -> Answer
    requires { (length room.old ≡ 512) × InRange e.first e.seeds × (e.actions ≤ 64) × ((t : Study) × OrderedOnce e members words.now t) }
    ensures { (t : Study)
        → OrderedOnce e members words.now t
        → Reports t e.first e.seeds report.old result report.new }
{
    let taken = sampling::take_few_by(e.first, e, members, words, room);
    match keeping::judge_first(taken, e, report) {
        ControlFlow::Break(answer) => answer,
        ControlFlow::Continue(length) => {
            sampling::count_few(e, members, words, room, report);
            Answer::done(length as u64, 0)
        }
    }
}

// Many, and the values that they want are counted.
fn report_counted(
    file: &[u8],
    e: Extent,
    acts: &[[u8; 6]; 256],
    vars: &[[u8; 3]; 32],
    steps: &[u16; 512],
    wants: &[u16; 512],
    room: &mut [u8; 512],
    report: &mut [u8],
) -> Answer
    requires { (length room.old ≡ 512) × (length wants.now ≡ 512) × InRange e.first e.seeds × (64 < e.actions)
        × ((t : Study) × CountedOnce file.now e acts.now vars.now steps.now wants.now t) }
    ensures { (t : Study)
        → CountedOnce file.now e acts.now vars.now steps.now wants.now t
        → Reports t e.first e.seeds report.old result report.new }
{
    let taken = sampling::take_many_by(file, e.first, e, acts, vars, steps, wants, room);
    match keeping::judge_first(taken, e, report) {
        ControlFlow::Break(answer) => answer,
        ControlFlow::Continue(length) => {
            sampling::count_many(file, e, acts, vars, steps, wants, room, report);
            Answer::done(length as u64, 0)
        }
    }
}

// Every variable has a walk. Few actions: they are ordered once.
fn report_few(
    file: &[u8],
    e: Extent,
    acts: &[[u8; 6]; 256],
    vars: &[[u8; 3]; 32],
    setters: &mut [u8; 512],
    steps: &[u16; 512],
    report: &mut [u8],
) -> Answer
    requires { (length setters.old ≡ 512) × InRange e.first e.seeds × (e.actions ≤ 64)
        × ((t : Study) × EnteredIn file.now e acts.now vars.now setters.old steps.now t) }
    ensures { (t : Study)
        → EnteredIn file.now e acts.now vars.now setters.old steps.now t
        → Reports t e.first e.seeds report.old result report.new }
{
    let mut words = [0u64; 64];
    let found = renaming::order_by_action(file, e.actions, acts, vars, setters, steps, &mut words);
    let Ok(members) = found else {
        return heading::all_refused(Rule::OffWalk, e.seeds, report);
    };
    report_ordered(e, members, &words, setters, report)
}

// Many: what they want is counted once.
fn report_many(
    file: &[u8],
    e: Extent,
    acts: &[[u8; 6]; 256],
    vars: &[[u8; 3]; 32],
    setters: &mut [u8; 512],
    steps: &[u16; 512],
    report: &mut [u8],
) -> Answer
    requires { (length setters.old ≡ 512) × InRange e.first e.seeds × (64 < e.actions)
        × ((t : Study) × EnteredIn file.now e acts.now vars.now setters.old steps.now t) }
    ensures { (t : Study)
        → EnteredIn file.now e acts.now vars.now setters.old steps.now t
        → Reports t e.first e.seeds report.old result report.new }
{
    let mut wants = [0u16; 512];
    let met = wanting::want_all(file, e.actions, acts, steps, &mut wants);
    let Ok(()) = met else {
        return heading::all_refused(Rule::OffWalk, e.seeds, report);
    };
    report_counted(file, e, acts, vars, steps, &wants, setters, report)
}

// The seeds are in range, and one to 64.
pub fn report_loaded(
    file: &[u8],
    first: u64,
    seeds: usize,
    n: usize,
    actions: usize,
    acts: &[[u8; 6]; 256],
    vars: &[[u8; 3]; 32],
    setters: &mut [u8; 512],
    report: &mut [u8],
) -> Answer
    requires { (length setters.old ≡ 512) × (1 ≤ first) × (1 ≤ seeds) × (seeds ≤ 64) × (first + seeds ≤ 2147483647)
        × ((t : Study) × (x : ℕ) × KnownIn file.now n actions x acts.now vars.now setters.old t) }
    ensures { (t : Study) (x : ℕ)
        → KnownIn file.now n actions x acts.now vars.now setters.old t
        → Reports t first seeds report.old result report.new }
{
    let mut steps = [0u16; 512];
    let walked = tracing::walk_all(n, actions, acts, vars, setters, &mut steps);
    let Ok(total) = walked else {
        return heading::all_refused(Rule::NoWalk, seeds, report);
    };
    let e = Extent {
        first,
        seeds,
        vars: n,
        actions,
        total,
    };
    if FEW < actions {
        return report_many(file, e, acts, vars, setters, &steps, report);
    }
    report_few(file, e, acts, vars, setters, &steps, report)
}
