// The orders of a circle of actions as facts, each by the first rule that applies.
#![tactic(auto)]

ghost use Rattle.std.specs.Prelude.{◌≡◌, [], ◌∷◌, ◌++◌, ℕ, ◌+◌, ◌≤◌, ◌<◌, length, take};
ghost use Rattle.study.specs.Study.{Study};
ghost use Rattle.walks.specs.Walks.{conditions_of};
ghost use Rattle.wanting.specs.Wanting.{wants as Wanting·wants};
ghost use Rattle.explained.specs.Facts.{row_of, rows_of};
ghost use Rattle.explained.specs.Rings.{order_fact};
ghost use Rattle.ringing.specs.Stranded.{Opened, Rowed};
ghost use Rattle.ringing.specs.Path.{AreActions, circle_facts};

use facts::{Fact, Rule};
use tables::Act;

// Where on the path its circle begins, and how long the path is.
#[derive(Clone, Copy)]
pub struct Circle {
    pub from: usize,
    pub to: usize,
}

// Whether an action wants a variable at a value.
fn wants(file: &[u8], act: Act, v: u8, q: u8) -> bool
    requires { (t : Study) × (j : ℕ) × Opened file.now act t j }
    ensures { (t : Study) (j : ℕ) → Opened file.now act t j → result ≡ Wanting·wants (conditions_of t j) v q }
{
    for k in 0..act.many {
        let at = act.place + 3 * k as usize;
        if file[at + 1] == v && file[at + 2] == q {
            return true;
        }
    }
    false
}

// One order of the ring, by the first rule that applies: i comes before j.
fn order(
    file: &[u8],
    i: u8,
    j: u8,
    acts: &[[u8; 6]; 256],
    facts: &mut [Fact; 288],
    n: usize,
) -> usize
    requires { (n < 288) × (length facts.old ≡ 288)
        × ((t : Study) × Rowed file.now acts.now t × (i < length t.actions) × (j < length t.actions)) }
    ensures value { (result ≡ n + 1) × (length facts.new ≡ 288) }
    ensures facts_after { (t : Study)
        → Rowed file.now acts.now t
        → i < length t.actions
        → j < length t.actions
        → take result facts.new ≡ take n facts.old ++ (row_of (order_fact t i j) ∷ []) }
{
    let one = tables::action_at(acts, tables::wide(i));
    let other = tables::action_at(acts, tables::wide(j));
    if one.var == other.var && one.post == other.pre {
        let by_next = Fact::Ring {
            rule: Rule::Next,
            action: i,
            next: j,
            variable: other.var,
            value: other.pre,
        };
        return facts::add(facts, n, by_next);
    }
    if wants(file, other, one.var, one.post) {
        let by_sets = Fact::Ring {
            rule: Rule::Sets,
            action: i,
            next: j,
            variable: one.var,
            value: one.post,
        };
        return facts::add(facts, n, by_sets);
    }
    let by_leaves = Fact::Ring {
        rule: Rule::Leaves,
        action: i,
        next: j,
        variable: other.var,
        value: other.pre,
    };
    facts::add(facts, n, by_leaves)
}

// The orders of the circle: each action of it after the next, and the last after the first.
pub fn orders(
    file: &[u8],
    c: Circle,
    acts: &[[u8; 6]; 256],
    path: &[u8; 256],
    facts: &mut [Fact; 288],
) -> usize
    requires { (length path.now ≡ 256) × (length facts.old ≡ 288) × (c.from < c.to) × (c.to ≤ 256)
        × ((t : Study) × Rowed file.now acts.now t × AreActions t path.now c.to) }
    ensures upper_bound { (result ≤ 288) × (length facts.new ≡ 288) }
    ensures facts_after { (t : Study)
        → Rowed file.now acts.now t
        → AreActions t path.now c.to
        → take result facts.new ≡ rows_of (circle_facts t path.now c) }
{
    let from = c.from;
    let to = c.to;
    let mut n = 0;
    for k in from..to - 1 {
        n = order(file, path[k + 1], path[k], acts, facts, n);
    }
    order(file, path[from], path[to - 1], acts, facts, n)
}
