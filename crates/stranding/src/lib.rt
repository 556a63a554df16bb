// The walk actions that cannot be taken: those on a ring, or after one.
#![tactic(auto)]

ghost use Rattle.std.specs.Prelude.{◌≡◌, false, List, ℕ, ◌+◌, ◌*◌, ◌≤◌, ◌<◌, length, get_or, take, drop};
ghost use Rattle.bits.specs.Bits.{within};
ghost use Rattle.study.specs.Study.{Study};
ghost use Rattle.walks.specs.Walks.{OnAWalk};
ghost use Rattle.tables.specs.Rows.{var_column, pre_column};
ghost use Rattle.tracing.specs.Facts.{WishesIn};
ghost use Rattle.tracing.specs.Steps.{Rowed};
ghost use Rattle.explained.specs.Rings.{Stuck};
ghost use Rattle.stranding.specs.Left.{HasJust, Less, UntakenIn};

// Puts the actions that their step names into the set: those on walks.
fn gather(actions: usize, acts: &[[u8; 6]; 256], steps: &[u16; 512], set: &mut [u64; 4])
    requires { (length set.old ≡ 4) × (actions ≤ 256)
        × ((i : ℕ) → i < actions → 16 * get_or (var_column acts.now) i 0 + get_or (pre_column acts.now) i 0 < 512) }
    ensures set_len { length set.new ≡ 4 }
    ensures by_index { (file : List ℕ) (t : Study)
        → WishesIn file actions acts.now t
        → Rowed t (length t.tasks) steps.now
        → ((i : ℕ) → within set.old i ≡ false)
        → HasJust (OnAWalk t) set.new }
{
    for i in 0..actions {
        let act = tables::action_at(acts, i);
        if steps[16 * tables::wide(act.var) + tables::wide(act.pre)] == (i + 2) as u16 {
            bits::add(set, i as u8);
        }
    }
}

// Takes the first n of those that were taken out of the set.
fn take_out(n: usize, room: &[u8; 512], set: &mut [u64; 4])
    requires { (n ≤ 256) × (length room.now ≡ 512) × (length set.old ≡ 4) }
    ensures { (length set.new ≡ 4) × Less (take n (drop 256 room.now)) set.old set.new }
{
    for action in &room[256..256 + n] {
        bits::remove(set, *action);
    }
}

// Every variable has a walk and every condition is on it. Which ranks the actions are taken by does not matter for those
// that cannot be taken.
pub fn left_over(
    file: &[u8],
    n: usize,
    actions: usize,
    total: usize,
    acts: &[[u8; 6]; 256],
    vars: &[[u8; 3]; 32],
    steps: &[u16; 512],
    left: &mut [u64; 4],
)
    requires { (length left.old ≡ 4) × ((t : Study) × UntakenIn file.now n actions total acts.now vars.now steps.now t) }
    ensures left_len { length left.new ≡ 4 }
    ensures has_just { (t : Study)
        → UntakenIn file.now n actions total acts.now vars.now steps.now t
        → ((i : ℕ) → within left.old i ≡ false)
        → HasJust (Stuck t) left.new }
{
    let mut wants = [0u16; 512];
    // each condition is on its variable's walk, so nothing is refused
    let _ = wanting::want_all(file, actions, acts, steps, &mut wants);
    let mut ranks = [0u8; 256];
    draw::draw(1, actions as u64, &mut ranks);
    let mut room = [0u8; 512];
    let taken = stages::take_many(
        file,
        &ranks[..actions],
        n,
        total,
        acts,
        vars,
        steps,
        &mut wants,
        &mut room,
    );
    gather(actions, acts, steps, left);
    take_out(taken, &room, left);
}
