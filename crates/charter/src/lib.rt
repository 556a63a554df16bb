// Checks a chart of a study file: loads it and goes one of two ways; above 64 actions it first finds whether there is a plan.
#![tactic(auto)]

ghost use Rattle.std.specs.Prelude.{◌≡◌, ℕ, length, OnOk, IfErr};
ghost use Rattle.study.specs.Study.{Study};
ghost use Rattle.stages.specs.Whole.{KnownIn};
ghost use Rattle.charts.specs.Charts.{Chart, chart_of};
ghost use Rattle.charts.specs.Answers.{Plannable, Charts, ChartAllows};
ghost use Rattle.listing.specs.Listing.{Empty, SetOfWalks};

use answer::{Answer, Rule};

// Up to so many actions a set of actions is one word.
const FEW: usize = 64;

// 10, 11, 12; or the walk actions are put into a set that is lent empty.
fn ready_many(
    file: &[u8],
    n: usize,
    count: usize,
    acts: &[[u8; 6]; 256],
    vars: &[[u8; 3]; 32],
    setters: &[u8; 512],
    members: &mut [u64; 4],
) -> Result<(), Answer>
    requires { (length members.old ≡ 4) × Empty members.old
        × ((t : Study) × (x : ℕ) × KnownIn file.now n count x acts.now vars.now setters.now t) }
    ensures members_len { length members.new ≡ 4 }
    ensures charts { (t : Study) (x : ℕ)
        → KnownIn file.now n count x acts.now vars.now setters.now t
        → IfErr result (λ refusal. (c : Chart) → Charts t c refusal) }
    ensures plannable { (t : Study) (x : ℕ)
        → KnownIn file.now n count x acts.now vars.now setters.now t
        → OnOk result (Plannable t × SetOfWalks t members.new) }
{
    let mut steps = [0u16; 512];
    let walked = tracing::walk_all(n, count, acts, vars, setters, &mut steps);
    let total = match walked {
        Ok(total) => total,
        Err(fault) => return Err(handing::unwalked(Err(fault))),
    };
    let mut wants = [0u16; 512];
    if let Err(off) = wanting::want_all(file, count, acts, &steps, &mut wants) {
        return Err(handing::unmet(off));
    }
    let taken = sweeping::sweep(file, n, total, acts, vars, &steps, &mut wants);
    if taken < total {
        return Err(Rule::Ring.refusal(taken as u64));
    }
    listing::gather_walks(count, acts, &steps, members);
    Ok(())
}

// What was loaded has many actions: whether there is a plan first, then the chart.
fn chart_many(
    file: &[u8],
    n: usize,
    count: usize,
    acts: &[[u8; 6]; 256],
    vars: &[[u8; 3]; 32],
    setters: &[u8; 512],
    actions: &[u8],
    pairs: &[u8],
) -> Answer
    requires { (t : Study) × (x : ℕ) × KnownIn file.now n count x acts.now vars.now setters.now t }
    ensures { (t : Study) (x : ℕ)
        → KnownIn file.now n count x acts.now vars.now setters.now t
        → Charts t (chart_of actions.now pairs.now) result }
{
    let mut members = [0u64; 4];
    match ready_many(file, n, count, acts, vars, setters, &mut members) {
        Ok(()) => weighing::vet(
            file, n, count, acts, vars, setters, &members, actions, pairs,
        ),
        Err(refusal) => refusal,
    }
}

// Checks a chart: a list of actions and pairs, this before that. Nothing is written.
pub fn chart(file: &[u8], crew: u64, actions: &[u8], pairs: &[u8]) -> Answer
    ensures { ChartAllows file.now crew actions.now pairs.now result }
{
    let mut acts = [[0u8; 6]; 256];
    let mut vars = [[0u8; 3]; 32];
    let mut setters = [0u8; 512];
    let loaded = match mustering::load_for(file, crew, &mut acts, &mut vars, &mut setters) {
        Ok(loaded) => loaded,
        Err(refusal) => return Answer::from(refusal),
    };
    let n = loaded.vars;
    let count = loaded.actions;
    if FEW < count {
        return chart_many(file, n, count, &acts, &vars, &setters, actions, pairs);
    }
    vetting::chart_few(file, n, count, &acts, &vars, &mut setters, actions, pairs)
}
