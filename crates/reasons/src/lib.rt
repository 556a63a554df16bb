// The reasons why a step of a plan comes after earlier ones: every direct order that ends in its action.
#![tactic(auto)]

ghost use Rattle.std.specs.Prelude.{◌≡◌, true, false, List, ◌++◌, ℕ, ◌+◌, ◌≤◌, ◌<◌, length, take, get_or};
ghost use Rattle.bits.specs.Bits.{within};
ghost use Rattle.study.specs.Study.{Study};
ghost use Rattle.walks.specs.Walks.{var_of, pre_of, conditions_of};
ghost use Rattle.tables.specs.Rows.{start_column};
ghost use Rattle.explained.specs.Facts.{next, rows_of};
ghost use Rattle.explained.specs.Reasons.{set_reason, set_reasons, leave_reasons, reasons_of, step_of, stands};
ghost use Rattle.explained.specs.Wanters.{set_at};
ghost use Rattle.reasons.specs.Known.{Placed, Reasonable, Step};

use facts::{Fact, Rule};
use tables::Act;

// Rule (a): the action that sets what this one leaves, unless that is the start.
fn by_next(
    act: Act,
    vars: &[[u8; 3]; 32],
    setters: &[u8; 512],
    places: &[u8; 256],
    facts: &mut [Fact; 288],
) -> usize
    requires { (act.var < 32) × (act.pre < 16) × (length facts.old ≡ 288) }
    ensures upper_bound { (result ≤ 1) × (length facts.new ≡ 288) }
    ensures by_index { (file : List ℕ) (sets : List (List ℕ)) (t : Study) (plan : List ℕ) (j : ℕ)
        → Reasonable (start_column vars.now) setters.now sets places.now t plan
        → Step file act t plan j
        → take result facts.new ≡ rows_of (set_reason t plan next (var_of t j) (pre_of t j)) }
{
    let v = tables::wide(act.var);
    let var = tables::variable_at(vars, v);
    if act.pre == var.start {
        return 0;
    }
    let i = setters[16 * v + tables::wide(act.pre)];
    let reason = Fact::After {
        rule: Rule::Next,
        step: places[usize::from(i)],
        action: i,
        variable: act.var,
        value: act.pre,
    };
    facts::add(facts, 0, reason)
}

// Rule (b): for each condition, in order, the action that sets what it wants, unless that is the start.
fn by_sets(
    file: &[u8],
    act: Act,
    begin: usize,
    vars: &[[u8; 3]; 32],
    setters: &[u8; 512],
    places: &[u8; 256],
    facts: &mut [Fact; 288],
) -> usize
    requires { (begin ≤ 1) × (length facts.old ≡ 288)
        × ((t : Study) × (plan : List ℕ) × (j : ℕ) × (sets : List (List ℕ))
        × Reasonable (start_column vars.now) setters.now sets places.now t plan × Step file.now act t plan j) }
    ensures upper_bound { (result ≤ begin + 31) × (length facts.new ≡ 288) }
    ensures by_index { (sets : List (List ℕ)) (t : Study) (plan : List ℕ) (j : ℕ)
        → Reasonable (start_column vars.now) setters.now sets places.now t plan
        → Step file.now act t plan j
        → take result facts.new ≡ take begin facts.old ++ rows_of (set_reasons t plan (conditions_of t j)) }
{
    let mut n = begin;
    for k in 0..act.many {
        let at = act.place + 3 * k as usize;
        let u = file[at + 1];
        let q = file[at + 2];
        let v = tables::wide(u);
        let var = tables::variable_at(vars, v);
        if q != var.start {
            let i = setters[16 * v + tables::wide(q)];
            let reason = Fact::After {
                rule: Rule::Sets,
                step: places[usize::from(i)],
                action: i,
                variable: u,
                value: q,
            };
            n = facts::add(facts, n, reason);
        }
    }
    n
}

// The set of those that want a value.
fn wanters_of(wanters: &[[u64; 4]; 512], v: u8, q: u8) -> [u64; 4]
    requires { (v < 32) × (q < 16) }
    ensures { result ≡ set_at wanters.now v q }
{
    wanters[16 * tables::wide(v) + tables::wide(q)]
}

// Rule (c): each action that wants what this one leaves, the lowest first.
fn by_leaves(
    act: Act,
    begin: usize,
    wanters: &[[u64; 4]; 512],
    places: &[u8; 256],
    facts: &mut [Fact; 288],
) -> usize
    requires { (act.var < 32) × (act.pre < 16) × (begin ≤ 32) × (length facts.old ≡ 288) }
    ensures upper_bound { (result ≤ 288) × (length facts.new ≡ 288) }
    ensures by_index { (file starts setters : List ℕ) (t : Study) (plan : List ℕ) (j : ℕ)
        → Reasonable starts setters wanters.now places.now t plan
        → Step file act t plan j
        → take result facts.new ≡ take begin facts.old ++ rows_of (leave_reasons t plan (var_of t j) (pre_of t j) 0 (length t.actions)) }
{
    let mut rest = wanters_of(wanters, act.var, act.pre);
    let mut n = begin;
    while let Some(i) = bits::least(&rest) {
        bits::remove(&mut rest, i);
        let reason = Fact::After {
            rule: Rule::Leaves,
            step: places[i as usize],
            action: i,
            variable: act.var,
            value: act.pre,
        };
        n = facts::add(facts, n, reason);
    }
    n
}

// All of them: by (a), then (b), then (c).
pub fn of_step(
    file: &[u8],
    act: Act,
    vars: &[[u8; 3]; 32],
    setters: &[u8; 512],
    wanters: &[[u64; 4]; 512],
    places: &[u8; 256],
    facts: &mut [Fact; 288],
) -> usize
    requires { (length facts.old ≡ 288)
        × ((t : Study) × (plan : List ℕ) × (j : ℕ)
        × Reasonable (start_column vars.now) setters.now wanters.now places.now t plan × Step file.now act t plan j) }
    ensures upper_bound { (result ≤ 288) × (length facts.new ≡ 288) }
    ensures facts_after { (t : Study) (plan : List ℕ) (j : ℕ)
        → Reasonable (start_column vars.now) setters.now wanters.now places.now t plan
        → Step file.now act t plan j
        → take result facts.new ≡ rows_of (reasons_of t plan j) }
{
    let a = by_next(act, vars, setters, places, facts);
    let b = by_sets(file, act, a, vars, setters, places, facts);
    by_leaves(act, b, wanters, places, facts)
}

// Where in a plan each of its actions stands.
pub fn place_all(plan: &[u8], places: &mut [u8; 256])
    requires { (length places.old ≡ 256) × (length plan.now ≤ 256)
        × ((j k : ℕ) → j < k → k < length plan.now → get_or plan.now j 0 ≡ get_or plan.now k 0 → ⊥) }
    ensures { Placed plan.now places.new }
{
    for (k, action) in plan.iter().enumerate() {
        places[usize::from(*action)] = k as u8;
    }
}

// The set of a plan's actions.
pub fn gather(plan: &[u8], some: &mut [u64; 4])
    requires { length some.old ≡ 4 }
    ensures { (length some.new ≡ 4)
        × (((i : ℕ) → within some.old i ≡ false) → (i : ℕ) → within some.new i ≡ stands plan.now i) }
{
    for action in plan {
        bits::add(some, *action);
    }
}
