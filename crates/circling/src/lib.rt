// The ring that explains refusal 12: from an action to the lowest of those left that comes directly before it, until one
// repeats.
#![tactic(auto)]

ghost use Rattle.std.specs.Prelude.{◌≡◌, List, ℕ, ◌+◌, ◌≤◌, ◌<◌, length, take, get_or, unwrap_or};
ghost use Rattle.study.specs.Study.{Study};
ghost use Rattle.walks.specs.Walks.{conditions_of, var_of, post_of, Wants};
ghost use Rattle.tables.specs.Rows.{start_column};
ghost use Rattle.explained.specs.Facts.{Fact as Facts·Fact, rows_of};
ghost use Rattle.explained.specs.Rings.{Stuck, WaitsOn, Circled};
ghost use Rattle.ringing.specs.Stranded.{Stranded, Opened, Rowed};
ghost use Rattle.circling.specs.Lowest.{LowerOf, LowestBelow};
ghost use Rattle.ringing.specs.Path.{Pathed, Next, Closed};

use facts::Fact;
use ringing::Circle;
use tables::Act;

// i, if it is left and lower.
fn lower(low: Option<u8>, i: u8, left: &[u64; 4]) -> Option<u8>
    ensures { LowerOf left.now (unwrap_or low 256) i (unwrap_or result 256) }
{
    if !bits::contains(left, i) {
        return low;
    }
    match low {
        Some(least) if least <= i => low,
        _ => Some(i),
    }
}

// Of those left that set what the conditions want, the lowest, if it is below `from`.
fn lowest_setter(
    file: &[u8],
    act: Act,
    from: Option<u8>,
    vars: &[[u8; 3]; 32],
    setters: &[u8; 512],
    left: &[u64; 4],
) -> Option<u8>
    requires { (t : Study) × (j : ℕ) × (sets : List (List ℕ))
        × Stranded file.now (start_column vars.now) setters.now sets left.now t × Opened file.now act t j × Stuck t j }
    ensures { (t : Study) (j : ℕ) (sets : List (List ℕ))
        → Stranded file.now (start_column vars.now) setters.now sets left.now t
        → Opened file.now act t j
        → Stuck t j
        → LowestBelow t (λ i. Wants (conditions_of t j) (var_of t i) (post_of t i)) (unwrap_or from 256) (unwrap_or result 256) }
{
    let mut low = from;
    for k in 0..act.many {
        let at = act.place + 3 * k as usize;
        let q = file[at + 2];
        let v = tables::wide(file[at + 1]);
        let var = tables::variable_at(vars, v);
        if q != var.start {
            low = lower(low, setters[16 * v + tables::wide(q)], left);
        }
    }
    low
}

// The lowest of those left that comes directly before an action that is left.
fn lowest_before(
    file: &[u8],
    act: Act,
    vars: &[[u8; 3]; 32],
    setters: &[u8; 512],
    wanters: &[[u64; 4]; 512],
    left: &[u64; 4],
) -> u8
    requires { (t : Study) × (j : ℕ)
        × Stranded file.now (start_column vars.now) setters.now wanters.now left.now t × Opened file.now act t j × Stuck t j }
    ensures upper_bound { result < 256 }
    ensures waits_on { (t : Study) (j : ℕ)
        → Stranded file.now (start_column vars.now) setters.now wanters.now left.now t
        → Opened file.now act t j
        → Stuck t j
        → WaitsOn t j result }
{
    let v = tables::wide(act.var);
    let j = 16 * v + tables::wide(act.pre);
    let row = wanters[j];
    let mut low = bits::least(&row);
    let var = tables::variable_at(vars, v);
    if act.pre != var.start {
        low = lower(low, setters[j], left);
    }
    lowest_setter(file, act, low, vars, setters, left).unwrap()
}

// An action, and its entry on the path.
#[derive(Clone, Copy)]
pub struct Spot {
    action: usize,
    entry: usize,
}

// Puts an action on the path, and goes to the one that must come first. `seen` has for each action 1 more than its entry on the
// path, or 0.
#[cycle(come_first_wait)]
fn wait(
    spot: Spot,
    file: &[u8],
    acts: &[[u8; 6]; 256],
    vars: &[[u8; 3]; 32],
    setters: &[u8; 512],
    wanters: &[[u64; 4]; 512],
    left: &[u64; 4],
    seen: &mut [u16; 256],
    path: &mut [u8; 256],
) -> Circle
    requires { (length seen.old ≡ 256) × (length path.old ≡ 256)
        × ((t : Study) × Stranded file.now (start_column vars.now) setters.now wanters.now left.now t × Rowed file.now acts.now t
        × Pathed t seen.old path.old spot.entry × Stuck t spot.action × (get_or seen.old spot.action 0 ≡ 0) × Next t path.old spot.entry spot.action) }
    ensures seen_len { (length seen.new ≡ 256) × (length path.new ≡ 256) }
    ensures closed { (t : Study)
        → Stranded file.now (start_column vars.now) setters.now wanters.now left.now t
        → Rowed file.now acts.now t
        → Pathed t seen.old path.old spot.entry
        → Stuck t spot.action
        → get_or seen.old spot.action 0 ≡ 0
        → Next t path.old spot.entry spot.action
        → Closed t path.old path.new spot.entry result × (spot.entry < result.to) × (get_or path.new spot.entry 0 ≡ spot.action) }
{
    let j = spot.action;
    let k = spot.entry;
    path[k] = j as u8;
    seen[j] = (k + 1) as u16;
    let act = tables::action_at(acts, j);
    let i = lowest_before(file, act, vars, setters, wanters, left) as usize;
    let first = Spot {
        action: i,
        entry: k + 1,
    };
    come_first(first, file, acts, vars, setters, wanters, left, seen, path)
}

// The action that must come before the last of the path: it is on the path, or goes on it.
#[cycle(come_first_wait)]
fn come_first(
    spot: Spot,
    file: &[u8],
    acts: &[[u8; 6]; 256],
    vars: &[[u8; 3]; 32],
    setters: &[u8; 512],
    wanters: &[[u64; 4]; 512],
    left: &[u64; 4],
    seen: &mut [u16; 256],
    path: &mut [u8; 256],
) -> Circle
    requires { (0 < spot.entry) × (length seen.old ≡ 256) × (length path.old ≡ 256)
        × ((t : Study) × Stranded file.now (start_column vars.now) setters.now wanters.now left.now t × Rowed file.now acts.now t
        × Pathed t seen.old path.old spot.entry × Next t path.old spot.entry spot.action) }
    ensures seen_len { (length seen.new ≡ 256) × (length path.new ≡ 256) }
    ensures closed { (t : Study)
        → Stranded file.now (start_column vars.now) setters.now wanters.now left.now t
        → Rowed file.now acts.now t
        → Pathed t seen.old path.old spot.entry
        → Next t path.old spot.entry spot.action
        → Closed t path.old path.new spot.entry result }
{
    let i = spot.action;
    if seen[i] != 0 {
        return Circle {
            from: (seen[i] - 1) as usize,
            to: spot.entry,
        };
    }
    wait(spot, file, acts, vars, setters, wanters, left, seen, path)
}

pub fn ring(
    file: &[u8],
    acts: &[[u8; 6]; 256],
    vars: &[[u8; 3]; 32],
    setters: &[u8; 512],
    wanters: &[[u64; 4]; 512],
    left: &[u64; 4],
    facts: &mut [Fact; 288],
) -> usize
    requires { (length facts.old ≡ 288)
        × ((t : Study) × (i : ℕ) × Stranded file.now (start_column vars.now) setters.now wanters.now left.now t × Rowed file.now acts.now t × Stuck t i) }
    ensures upper_bound { (result ≤ 288) × (length facts.new ≡ 288) }
    ensures circled { (t : Study) (i : ℕ)
        → Stranded file.now (start_column vars.now) setters.now wanters.now left.now t
        → Rowed file.now acts.now t
        → Stuck t i
        → (list : List Facts·Fact) × (Circled t list × (take result facts.new ≡ rows_of list)) }
{
    let mut seen = [0u16; 256];
    let mut path = [0u8; 256];
    let first = bits::least(left).unwrap() as usize;
    let spot = Spot {
        action: first,
        entry: 0,
    };
    let c = wait(
        spot, file, acts, vars, setters, wanters, left, &mut seen, &mut path,
    );
    ringing::orders(file, c, acts, &path, facts)
}
