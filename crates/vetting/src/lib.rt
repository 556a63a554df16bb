// Checks a chart of a study with at most 64 actions, whose tables are loaded: sets of actions are words.
#![tactic(auto)]

ghost use Rattle.std.specs.Prelude.{◌≡◌, ℕ, ◌≤◌, ◌<◌, length, ◌↔◌, true, OnOk, IfErr};
ghost use Rattle.ranks.specs.Ranks.{rising};
ghost use Rattle.study.specs.Study.{Study};
ghost use Rattle.orders.specs.Orders.{Counted};
ghost use Rattle.hanging.specs.Hanging.{InWord};
ghost use Rattle.tying.specs.Tying.{Low};
ghost use Rattle.tables.specs.Rows.{out_column};
ghost use Rattle.stages.specs.Whole.{KnownIn, WalkingIn};
ghost use Rattle.charts.specs.Charts.{chart_of};
ghost use Rattle.charts.specs.Faults.{Direct};
ghost use Rattle.charts.specs.Answers.{Listed, Charts};
ghost use Rattle.comparing.specs.Comparing.{ListedIn, Wanted};
ghost use Rattle.tracing.specs.Facts.{TellsForce};
ghost use Rattle.listing.specs.Listing.{HasJust};
ghost use Rattle.vetting.specs.Told.{lack_told};
ghost use Rattle.vetting.specs.Words.{WalksTold, InWords, AllZero, Readies};

use answer::{Answer, Rule};
use comparing::Word;
use listing::ActionSet;

// The walk actions as a word, and how many they are.
#[derive(Clone, Copy)]
pub struct WalkActions {
    pub members: u64,
    pub total: usize,
}

// At most so many actions and pairs.
const MOST_ACTIONS: usize = 256;

const MOST_PAIRS: usize = 4096;

// The lowest direct order that no chain gives; or 0 with how many actions and pairs there are.
pub fn told(lack: Option<(u8, u8)>, actions: usize, pairs: usize) -> Answer
    ensures { result ≡ lack_told actions pairs lack }
{
    match lack {
        None => Answer::done(actions as u64, pairs as u64),
        Some((first, second)) => Rule::LacksOrder.answer(first as u64, second as u64),
    }
}

// The list is in order, and the members are its actions: 26, 27, 28, or 0.
fn vet_ties(
    total: usize,
    members: u64,
    words: &[u64; 64],
    actions: &[u8],
    pairs: &[u8],
    room: &mut [u8; 512],
) -> Answer
    requires { (total ≤ 256) × Counted (InWord members) total × Low members × ListedIn actions.now members × (length room.old ≡ 512) }
    ensures { (t : Study)
        → ((i j : ℕ) → Wanted members words.now i j ↔ Direct t i j)
        → Listed t (chart_of actions.now pairs.now)
        → Charts t (chart_of actions.now pairs.now) result }
{
    let mut ties = [0u64; 64];
    let many = listing::many_pairs(pairs.len());
    if let Some(k) = comparing::tie_all(pairs, members, &mut ties) {
        return Rule::WrongPair.refusal(k as u64);
    }
    if tying::close(members, total, &mut ties, room).is_err() {
        return Rule::Circle.refusal(0);
    }
    let lack = comparing::lowest(members, words, &ties);
    told(lack, actions.len(), many)
}

// What is wrong with how many there are, or with the list: 19, 14, 25. Where there is a straight plan, a list that passes has just
// the members, which are the walk actions.
pub fn vet_list<S: ActionSet>(
    count: usize,
    acts: &[[u8; 6]; 256],
    members: &S,
    actions: &[u8],
    pairs: &[u8],
) -> Result<(), Answer>
    requires room { count ≤ S.room }
    requires few_members { (i : ℕ) → S.has members.now i ≡ true → i < 256 }
    requires known { (t : Study) × (count ≡ length t.actions) × TellsForce count (out_column acts.now) t }
    ensures refused { (t : Study)
        → WalksTold t count (out_column acts.now) (S.has members.now)
        → IfErr result (λ refusal. Charts t (chart_of actions.now pairs.now) refusal) }
    ensures listed { (t : Study)
        → WalksTold t count (out_column acts.now) (S.has members.now)
        → OnOk result (Listed t (chart_of actions.now pairs.now)) }
    ensures set_of { OnOk result (HasJust actions.now (S.has members.now)) }
{
    if MOST_ACTIONS < actions.len() {
        return Err(Rule::WrongCount.refusal(actions.len() as u64));
    }
    let many = listing::many_pairs(pairs.len());
    if MOST_PAIRS < many {
        return Err(Rule::WrongCount.refusal(many as u64));
    }
    if let Some(k) = listing::first_unusable(actions, count, acts) {
        return Err(Rule::NoAction.refusal(k as u64));
    }
    if let Some(low) = listing::lowest_amiss(actions, members) {
        return Err(Rule::WrongList.refusal(low as u64));
    }
    Ok(())
}

// There is a straight plan: 19, 14, 25, and what comes after.
fn vet_words(
    count: usize,
    total: usize,
    acts: &[[u8; 6]; 256],
    members: u64,
    words: &[u64; 64],
    actions: &[u8],
    pairs: &[u8],
    room: &mut [u8; 512],
) -> Answer
    requires { (count ≤ 64) × ((t : Study) × InWords t count total members (out_column acts.now) words.now) × (length room.old ≡ 512) }
    ensures { (t : Study)
        → InWords t count total members (out_column acts.now) words.now
        → Charts t (chart_of actions.now pairs.now) result }
{
    match vet_list(count, acts, &Word(members), actions, pairs) {
        Ok(()) => vet_ties(total, members, words, actions, pairs, room),
        Err(refusal) => refusal,
    }
}

// Every variable has a walk: 11, 12, or in words. Each action's rank is its own number, and so is its name. The setters are
// not needed once the actions are ordered: their table is used up as the room.
fn order_words(
    file: &[u8],
    count: usize,
    total: usize,
    acts: &[[u8; 6]; 256],
    vars: &[[u8; 3]; 32],
    setters: &mut [u8; 512],
    steps: &[u16; 512],
    words: &mut [u64; 64],
) -> Result<WalkActions, Answer>
    requires { (length words.old ≡ 64) × AllZero words.old × (count ≤ 64) × (length setters.old ≡ 512)
        × ((t : Study) × (n : ℕ) × WalkingIn file.now (rising count) n total acts.now vars.now setters.old steps.now t) }
    ensures setters_len { length setters.new ≡ 512 }
    ensures readies { (t : Study) (n : ℕ)
        → WalkingIn file.now (rising count) n total acts.now vars.now setters.old steps.now t
        → Readies t count (out_column acts.now) words.new result }
{
    let mut ranks = [0u8; 64];
    tying::number_all(&mut ranks);
    let found = ordering::order_all(
        file,
        &ranks[..count],
        count,
        acts,
        vars,
        setters,
        steps,
        words,
    );
    let members = match found {
        Ok(members) => members,
        Err(off) => return Err(handing::unmet(off)),
    };
    tying::number_all(setters);
    let taken = hanging::take_looking(members, total, words, setters);
    if taken < total {
        return Err(Rule::Ring.refusal(taken as u64));
    }
    Ok(WalkActions { members, total })
}

// What was loaded: 10, or the same. The steps are not needed after this, which keeps the ties out of their frame.
fn ready(
    file: &[u8],
    n: usize,
    count: usize,
    acts: &[[u8; 6]; 256],
    vars: &[[u8; 3]; 32],
    setters: &mut [u8; 512],
    words: &mut [u64; 64],
) -> Result<WalkActions, Answer>
    requires { (length words.old ≡ 64) × AllZero words.old × (count ≤ 64) × (length setters.old ≡ 512)
        × ((t : Study) × (x : ℕ) × KnownIn file.now n count x acts.now vars.now setters.old t) }
    ensures setters_len { length setters.new ≡ 512 }
    ensures readies { (t : Study) (x : ℕ)
        → KnownIn file.now n count x acts.now vars.now setters.old t
        → Readies t count (out_column acts.now) words.new result }
{
    let mut steps = [0u16; 512];
    let walked = tracing::walk_all(n, count, acts, vars, setters, &mut steps);
    let total = match walked {
        Ok(total) => total,
        Err(fault) => return Err(handing::unwalked(Err(fault))),
    };
    order_words(file, count, total, acts, vars, setters, &steps, words)
}

// What was loaded has at most 64 actions. The table of setters is used up.
pub fn chart_few(
    file: &[u8],
    n: usize,
    count: usize,
    acts: &[[u8; 6]; 256],
    vars: &[[u8; 3]; 32],
    setters: &mut [u8; 512],
    actions: &[u8],
    pairs: &[u8],
) -> Answer
    requires { (count ≤ 64) × (length setters.old ≡ 512)
        × ((t : Study) × (x : ℕ) × KnownIn file.now n count x acts.now vars.now setters.old t) }
    ensures { (t : Study) (x : ℕ)
        → KnownIn file.now n count x acts.now vars.now setters.old t
        → Charts t (chart_of actions.now pairs.now) result }
{
    let mut words = [0u64; 64];
    match ready(file, n, count, acts, vars, setters, &mut words) {
        Ok(WalkActions { members, total }) => {
            vet_words(count, total, acts, members, &words, actions, pairs, setters)
        }
        Err(refusal) => refusal,
    }
}
