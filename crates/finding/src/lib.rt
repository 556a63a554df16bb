// The facts that explain refusals 10 and 11: a trace back from the goal, and a walk that passes a wanted value by.
#![tactic(auto)]

ghost use Rattle.std.specs.Prelude.{◌≡◌, List, ℕ, ◌≤◌, ◌<◌, length, take};
ghost use Rattle.study.specs.Study.{Study};
ghost use Rattle.walks.specs.Walks.{goal_of, start_of, conditions_of, Wants};
ghost use Rattle.tracing.specs.Facts.{MovesIn};
ghost use Rattle.wanting.specs.Wanting.{StandAt};
ghost use Rattle.explained.specs.Facts.{Fact as Facts·Fact, rows_of};
ghost use Rattle.explained.specs.Refusals.{TracedFromGoal};
ghost use Rattle.finding.specs.Past.{Past, past_facts};

use facts::Fact;

// Traces variable v back from its goal: each value with the action that sets it, up to the value that no action in force
// sets, or to one that was passed. The bits of `passed` are the values passed; a variable has 16 at most.
pub fn trace_back(
    v: u8,
    goal: u8,
    actions: usize,
    acts: &[[u8; 6]; 256],
    setters: &[u8; 512],
    facts: &mut [Fact; 288],
) -> usize
    requires { (v < 32) × (goal < 16) × (length facts.old ≡ 288) × ((t : Study) × MovesIn actions setters.now acts.now t) }
    ensures upper_bound { (result ≤ 288) × (length facts.new ≡ 288) }
    ensures traced_from_goal { (t : Study)
        → MovesIn actions setters.now acts.now t
        → goal_of t v ≡ goal
        → (list : List Facts·Fact) × (TracedFromGoal t v list × (take result facts.new ≡ rows_of list)) }
{
    let of_goal = Fact::Goal {
        variable: v,
        value: goal,
    };
    let mut n = facts::add(facts, 0, of_goal);
    let mut passed = 0u64;
    let mut q = goal;
    for _turn in 0..17u8 {
        if bits::holds(passed, q) {
            return facts::add(
                facts,
                n,
                Fact::Round {
                    variable: v,
                    value: q,
                },
            );
        }
        let found = tracing::setter(setters, acts, actions, usize::from(v), q);
        let Some(i) = found else {
            return facts::add(
                facts,
                n,
                Fact::Unset {
                    variable: v,
                    value: q,
                },
            );
        };
        let act = tables::action_at(acts, i);
        let set = Fact::Set {
            variable: v,
            value: q,
            action: i as u8,
            before: act.pre,
        };
        n = facts::add(facts, n, set);
        passed = bits::with_bit(passed, q);
        q = act.pre;
    }
    n
}

// Action i wants variable u at a value off its walk: the condition, and the walk from its start on.
pub fn walk_past(
    i: u8,
    u: u8,
    value: u8,
    start: u8,
    acts: &[[u8; 6]; 256],
    steps: &[u16; 512],
    facts: &mut [Fact; 288],
) -> usize
    requires { (length facts.old ≡ 288) × ((t : Study) × (list : List ℕ) × Past u acts.now steps.now t list × (start ≡ start_of t u)) }
    ensures upper_bound { (result ≤ 288) × (length facts.new ≡ 288) }
    ensures facts_after { (t : Study) (list : List ℕ)
        → Past u acts.now steps.now t list
        → start ≡ start_of t u
        → take result facts.new ≡ rows_of (past_facts t i u value list) }
{
    let wants = Fact::Wants {
        action: i,
        variable: u,
        value,
    };
    let first = facts::add(facts, 0, wants);
    let mut n = facts::add(
        facts,
        first,
        Fact::Start {
            variable: u,
            value: start,
        },
    );
    let mut q = start;
    for _turn in 0..16u8 {
        let step = steps[16 * tables::wide(u) + tables::wide(q)];
        if step < 2 {
            return n;
        }
        let a = (step - 2) as usize;
        let act = tables::action_at(acts, a);
        let walk = Fact::Walk {
            variable: u,
            action: a as u8,
            from: q,
            to: act.post,
        };
        n = facts::add(facts, n, walk);
        q = act.post;
    }
    n
}

// The value that an action wants of a variable.
pub fn wanted_value(file: &[u8], place: usize, many: u8, u: u8) -> u8
    requires { (t : Study) × (i : ℕ) × StandAt file.now place many t i }
    ensures { (t : Study) (i : ℕ)
        → StandAt file.now place many t i
        → (q : ℕ)
        → Wants (conditions_of t i) u q
        → result ≡ q }
{
    for k in 0..many {
        let at = place + 3 * k as usize;
        if file[at + 1] == u {
            return file[at + 2];
        }
    }
    0
}
