// The stages of planning what was loaded: walks, conditions on them, actions taken by rank, the plan handed over.
#![tactic(auto)]

ghost use Rattle.std.specs.Prelude.{◌≡◌, ℕ, ◌≤◌, length};
ghost use Rattle.ranks.specs.Ranks.{RankList};
ghost use Rattle.study.specs.Study.{Study};
ghost use Rattle.planning.specs.Planning.{Plans};
ghost use Rattle.draw.specs.Draw.{drawn};
ghost use Rattle.ordering.specs.Ordering.{Ordered};
ghost use Rattle.handing.specs.Handing.{Taken, InRoom};
ghost use Rattle.stages.specs.Whole.{KnownIn, GivenIn, WalkingIn, Orderly, WantsCountedIn};

use answer::Answer;

// Up to so many actions a set of ranks is one word.
const FEW: usize = 64;

// The conditions are counted, and there are many actions: a variable waits for another. The counts are used up.
pub fn take_many(
    file: &[u8],
    ranks: &[u8],
    n: usize,
    total: usize,
    acts: &[[u8; 6]; 256],
    vars: &[[u8; 3]; 32],
    steps: &[u16; 512],
    wants: &mut [u16; 512],
    room: &mut [u8; 512],
) -> usize
    requires { (length wants.old ≡ 512) × (length room.old ≡ 512)
        × ((t : Study) × RankList (length t.actions) ranks.now
        × WantsCountedIn file.now n (length ranks.now) total acts.now vars.now steps.now wants.old t) }
    ensures upper_bound { (result ≤ total) × (length room.new ≡ 512) }
    ensures taken { (t : Study)
        → RankList (length t.actions) ranks.now
        → WantsCountedIn file.now n (length ranks.now) total acts.now vars.now steps.now wants.old t
        → Taken t ranks.now total result room.new }
{
    let mut state = [0u8; 32];
    tables::set_out(n, vars, &mut state);
    ranking::name_all(ranks, room);
    taking::take_all(file, ranks, n, total, acts, steps, wants, &mut state, room)
}

// Every variable has a walk, and there are many actions.
fn plan_many(
    file: &[u8],
    ranks: &[u8],
    n: usize,
    total: usize,
    acts: &[[u8; 6]; 256],
    vars: &[[u8; 3]; 32],
    steps: &[u16; 512],
    room: &mut [u8; 512],
) -> Answer
    requires { (length room.old ≡ 512)
        × ((t : Study) × WalkingIn file.now ranks.now n total acts.now vars.now room.old steps.now t) }
    ensures room_len { length room.new ≡ 512 }
    ensures in_room { (t : Study)
        → WalkingIn file.now ranks.now n total acts.now vars.now room.old steps.now t
        → InRoom t ranks.now result room.new }
{
    let mut wants = [0u16; 512];
    if let Err(off) = wanting::want_all(file, ranks.len(), acts, steps, &mut wants) {
        return handing::unmet(off);
    }
    let taken = take_many(file, ranks, n, total, acts, vars, steps, &mut wants, room);
    handing::finish(taken, total)
}

// The ranks of few actions are bits of one word, and those that come directly before each are known.
pub fn take_few(
    members: u64,
    total: usize,
    ranks: &[u8],
    before: &[u64; 64],
    room: &mut [u8; 512],
) -> usize
    requires { (length room.old ≡ 512) × (length ranks.now ≤ 64)
        × ((t : Study) × RankList (length t.actions) ranks.now × Orderly total t × Ordered t ranks.now members before.now) }
    ensures upper_bound { (result ≤ total) × (length room.new ≡ 512) }
    ensures taken { (t : Study)
        → RankList (length t.actions) ranks.now
        → Orderly total t
        → Ordered t ranks.now members before.now
        → Taken t ranks.now total result room.new }
{
    ranking::name_all(ranks, room);
    hanging::take(members, total, before, room)
}

// Every variable has a walk, and there are few actions.
fn plan_few(
    file: &[u8],
    ranks: &[u8],
    total: usize,
    acts: &[[u8; 6]; 256],
    vars: &[[u8; 3]; 32],
    steps: &[u16; 512],
    room: &mut [u8; 512],
) -> Answer
    requires { (length room.old ≡ 512) × (length ranks.now ≤ 64)
        × ((t : Study) × (n : ℕ) × WalkingIn file.now ranks.now n total acts.now vars.now room.old steps.now t) }
    ensures room_len { length room.new ≡ 512 }
    ensures in_room { (t : Study) (n : ℕ)
        → WalkingIn file.now ranks.now n total acts.now vars.now room.old steps.now t
        → InRoom t ranks.now result room.new }
{
    let mut before = [0u64; 64];
    let found = ordering::order_all(
        file,
        ranks,
        ranks.len(),
        acts,
        vars,
        room,
        steps,
        &mut before,
    );
    let members = match found {
        Ok(members) => members,
        Err(off) => return handing::unmet(off),
    };
    let taken = take_few(members, total, ranks, &before, room);
    handing::finish(taken, total)
}

// Every variable has a walk: the plan, by one of the two ways.
fn plan_walked(
    file: &[u8],
    ranks: &[u8],
    n: usize,
    total: usize,
    acts: &[[u8; 6]; 256],
    vars: &[[u8; 3]; 32],
    steps: &[u16; 512],
    room: &mut [u8; 512],
) -> Answer
    requires { (length room.old ≡ 512)
        × ((t : Study) × WalkingIn file.now ranks.now n total acts.now vars.now room.old steps.now t) }
    ensures room_len { length room.new ≡ 512 }
    ensures in_room { (t : Study)
        → WalkingIn file.now ranks.now n total acts.now vars.now room.old steps.now t
        → InRoom t ranks.now result room.new }
{
    if FEW < ranks.len() {
        return plan_many(file, ranks, n, total, acts, vars, steps, room);
    }
    plan_few(file, ranks, total, acts, vars, steps, room)
}

// What was loaded, with a rank list of it. The table of setters is used up: its room takes the actions by rank, and from 256 on
// those that are taken, which are the plan.
pub fn plan_in_room(
    file: &[u8],
    ranks: &[u8],
    n: usize,
    actions: usize,
    acts: &[[u8; 6]; 256],
    vars: &[[u8; 3]; 32],
    setters: &mut [u8; 512],
) -> Answer
    requires { (length setters.old ≡ 512)
        × ((t : Study) × GivenIn file.now ranks.now n actions acts.now vars.now setters.old t) }
    ensures setters_len { length setters.new ≡ 512 }
    ensures in_room { (t : Study)
        → GivenIn file.now ranks.now n actions acts.now vars.now setters.old t
        → InRoom t ranks.now result setters.new }
{
    let mut steps = [0u16; 512];
    match tracing::walk_all(n, actions, acts, vars, setters, &mut steps) {
        Ok(total) => plan_walked(file, ranks, n, total, acts, vars, &steps, setters),
        Err(fault) => handing::unwalked(Err(fault)),
    }
}

// The same, with the plan handed over in a buffer.
pub fn plan_loaded(
    file: &[u8],
    ranks: &[u8],
    n: usize,
    actions: usize,
    acts: &[[u8; 6]; 256],
    vars: &[[u8; 3]; 32],
    setters: &mut [u8; 512],
    plan: &mut [u8],
) -> Answer
    requires { (length setters.old ≡ 512)
        × ((t : Study) × GivenIn file.now ranks.now n actions acts.now vars.now setters.old t) }
    ensures { (t : Study)
        → GivenIn file.now ranks.now n actions acts.now vars.now setters.old t
        → Plans t ranks.now plan.old result plan.new }
{
    let planned = plan_in_room(file, ranks, n, actions, acts, vars, setters);
    handing::hand_over(planned, setters, plan)
}

// The same with the list that the seed draws.
pub fn plan_drawn(
    file: &[u8],
    seed: u64,
    n: usize,
    actions: usize,
    acts: &[[u8; 6]; 256],
    vars: &[[u8; 3]; 32],
    setters: &mut [u8; 512],
    plan: &mut [u8],
) -> Answer
    requires { (length setters.old ≡ 512) × ((t : Study) × KnownIn file.now n actions seed acts.now vars.now setters.old t) }
    ensures { (t : Study)
        → KnownIn file.now n actions seed acts.now vars.now setters.old t
        → Plans t (drawn seed actions) plan.old result plan.new }
{
    let mut ranks = [0u8; 256];
    draw::draw(seed, actions as u64, &mut ranks);
    plan_loaded(
        file,
        &ranks[..actions],
        n,
        actions,
        acts,
        vars,
        setters,
        plan,
    )
}
