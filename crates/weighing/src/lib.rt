// What is wrong with a chart of more than 64 actions once its study is ready: its list, its pairs, the orders that they lack.
#![tactic(auto)]

ghost use Rattle.std.specs.Prelude.{◌≡◌, ℕ, length};
ghost use Rattle.study.specs.Study.{Study};
ghost use Rattle.stages.specs.Whole.{KnownIn};
ghost use Rattle.charts.specs.Charts.{chart_of};
ghost use Rattle.charts.specs.Answers.{Plannable, Listed, Charts};
ghost use Rattle.listing.specs.Listing.{SetOf, SetOfWalks};
ghost use Rattle.lacking.specs.Lacking.{Lacks};

use answer::{Answer, Rule};

// There is a straight plan: the lowest direct order that the closed rows lack. The walks are entered only here, so that the
// steps take the place that closing has left.
fn weigh_orders(
    file: &[u8],
    n: usize,
    count: usize,
    acts: &[[u8; 6]; 256],
    vars: &[[u8; 3]; 32],
    setters: &[u8; 512],
    rows: &[[u64; 4]; 256],
) -> Option<(u8, u8)>
    requires { (t : Study) × (x : ℕ) × KnownIn file.now n count x acts.now vars.now setters.now t × Plannable t }
    ensures { (t : Study) (x : ℕ)
        → KnownIn file.now n count x acts.now vars.now setters.now t
        → Plannable t
        → Lacks t rows.now result }
{
    let mut steps = [0u16; 512];
    let _ = tracing::walk_all(n, count, acts, vars, setters, &mut steps);
    lacking::lowest(file, count, acts, vars, setters, &steps, rows)
}

// The list is in order, and these are its actions: 26, 27, 28, or 0.
fn vet_pairs(
    file: &[u8],
    n: usize,
    count: usize,
    acts: &[[u8; 6]; 256],
    vars: &[[u8; 3]; 32],
    setters: &[u8; 512],
    listed: &[u64; 4],
    actions: &[u8],
    pairs: &[u8],
) -> Answer
    requires { SetOf actions.now listed.now
        × ((t : Study) × (x : ℕ) × KnownIn file.now n count x acts.now vars.now setters.now t × Plannable t) }
    ensures { (t : Study) (x : ℕ)
        → KnownIn file.now n count x acts.now vars.now setters.now t
        → Listed t (chart_of actions.now pairs.now)
        → Charts t (chart_of actions.now pairs.now) result }
{
    let mut rows = [[0u64; 4]; 256];
    let many = listing::many_pairs(pairs.len());
    if let Some(k) = listing::link_all(pairs, listed, &mut rows) {
        return Rule::WrongPair.refusal(k as u64);
    }
    if linking::close(listed, &mut rows).is_err() {
        return Rule::Circle.refusal(0);
    }
    let lack = weigh_orders(file, n, count, acts, vars, setters, &rows);
    vetting::told(lack, actions.len(), many)
}

// There is a straight plan, and the members are the walk actions: 19, 14, 25, and what comes after.
pub fn vet(
    file: &[u8],
    n: usize,
    count: usize,
    acts: &[[u8; 6]; 256],
    vars: &[[u8; 3]; 32],
    setters: &[u8; 512],
    members: &[u64; 4],
    actions: &[u8],
    pairs: &[u8],
) -> Answer
    requires { (length members.now ≡ 4)
        × ((t : Study) × (x : ℕ) × KnownIn file.now n count x acts.now vars.now setters.now t × Plannable t) }
    ensures { (t : Study) (x : ℕ)
        → KnownIn file.now n count x acts.now vars.now setters.now t
        → Plannable t
        → SetOfWalks t members.now
        → Charts t (chart_of actions.now pairs.now) result }
{
    match vetting::vet_list(count, acts, members, actions, pairs) {
        Ok(()) => vet_pairs(file, n, count, acts, vars, setters, members, actions, pairs),
        Err(refusal) => refusal,
    }
}
