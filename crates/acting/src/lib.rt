// The actions of lists judged, each with its conditions and its situations.
#![tactic(auto)]

ghost use Rattle.std.specs.Prelude.{◌≡◌, List, ◌∷◌, ◌++◌, map, ℕ, ◌+◌, ◌*◌, ◌≤◌, ◌<◌, length, drop, get_or};
ghost use Rattle.study.specs.Reading.{Record, action};
ghost use Rattle.tables.specs.Rows.{count_column};
ghost use Rattle.standing.specs.Reads.{Bounds};
ghost use Rattle.spelling.specs.Lists.{condition_record, times_record, action_records};
ghost use Rattle.spelling.specs.Lent.{unlent_condition, conditions_in, first_of, actions_in};
ghost use Rattle.drafts.specs.Drafts.{ActionsGoOn, TasksGoOn, Drafted, Leads, Keeps, first_or};

use advancing::{Progress, Step};

// An action that goes on names a variable: one that is not lent never goes on.
fn judge_action(p: Progress, v: u8, pre: u8, post: u8, rows: &[[u8; 3]; 32]) -> Step
    requires { Bounds p (count_column rows.now) × ActionsGoOn p.last }
    ensures keeps { Keeps (count_column rows.now) (λ q. (q.last ≡ 2) × (v < 32) × (q.actions ≡ p.actions + 1)) result }
    ensures by_index { (file : List ℕ) (rest : List Record)
        → Drafted file (count_column rows.now) p (action v pre post ∷ rest)
        → Leads file (count_column rows.now) rest result }
{
    advancing::judge_action(p, v, pre, post, p.at + 4, rows)
}

// The condition at a place of the lent bytes.
fn judge_condition(p: Progress, conditions: &[u8], i: usize, rows: &[[u8; 3]; 32]) -> Step
    requires { Bounds p (count_column rows.now) × (2 ≤ p.last) × (p.last ≤ 3) × (i ≤ length conditions.now) }
    ensures keeps { Keeps (count_column rows.now) (λ q. (q.last ≡ 3) × (i + 2 ≤ length conditions.now) × (q.actions ≡ p.actions)) result }
    ensures by_index { (file : List ℕ) (rest : List Record)
        → Drafted file (count_column rows.now) p (condition_record (first_or unlent_condition (conditions_in (drop i conditions.now))) ∷ rest)
        → Leads file (count_column rows.now) rest result }
{
    let next = p.at + 3;
    if conditions.len() - i < 2 {
        return advancing::judge_condition(p, drafts::UNLENT, drafts::UNLENT, next, rows);
    }
    advancing::judge_condition(p, conditions[i], conditions[i + 1], next, rows)
}

// The conditions of one action, so many of them, from a place of the lent bytes on.
fn judge_conditions(
    begin: Progress,
    many: u8,
    conditions: &[u8],
    used: usize,
    rows: &[[u8; 3]; 32],
) -> Step
    requires { Bounds begin (count_column rows.now) × (2 ≤ begin.last) × (begin.last ≤ 3) × (used ≤ length conditions.now) }
    ensures keeps { Keeps (count_column rows.now)
        (λ q. (2 ≤ q.last) × (q.last ≤ 3) × (used + 2 * many ≤ length conditions.now) × (q.actions ≡ begin.actions)) result }
    ensures by_index { (file : List ℕ) (rest : List Record)
        → Drafted file (count_column rows.now) begin (map condition_record (first_of unlent_condition many (conditions_in (drop used conditions.now))) ++ rest)
        → Leads file (count_column rows.now) rest result }
{
    let mut p = begin;
    let mut i = used;
    let mut left = many;
    while 0 < left {
        let step = judge_condition(p, conditions, i, rows);
        let Step::On(after) = step else {
            return step;
        };
        p = after;
        i += 2;
        left -= 1;
    }
    Step::On(p)
}

// The situations of an action, unless they are not written.
fn judge_times(p: Progress, n: u8) -> Step
    requires { (2 ≤ p.last) × (p.last ≤ 3) × (p.at ≤ 30000) }
    ensures by_index { (counts : List ℕ) → Bounds p counts → Keeps counts (λ q. ActionsGoOn q.last × (q.actions ≡ p.actions)) result }
    ensures by_index_2 { (file counts : List ℕ) (rest : List Record)
        → Drafted file counts p (times_record n ++ rest)
        → Leads file counts rest result }
{
    if n == 255 {
        return Step::On(p);
    }
    advancing::judge_times(p, n, p.at + 2)
}

// The action at a place of the lent bytes, with its conditions and its situations.
fn judge_entry(
    p: Progress,
    actions: &[u8],
    i: usize,
    conditions: &[u8],
    used: usize,
    rows: &[[u8; 3]; 32],
) -> Step
    requires { Bounds p (count_column rows.now) × ActionsGoOn p.last × (i + 5 ≤ length actions.now) × (used ≤ length conditions.now) }
    ensures keeps { Keeps (count_column rows.now)
        (λ q. ActionsGoOn q.last × (used + 2 * get_or actions.now (i + 4) 0 ≤ length conditions.now) × (q.actions ≡ p.actions + 1)) result }
    ensures by_index { (file : List ℕ) (rest : List Record)
        → Drafted file (count_column rows.now) p
        (action_records (actions_in (drop i actions.now) (conditions_in (drop used conditions.now))) ++ rest)
        → Leads file (count_column rows.now)
        (action_records (actions_in (drop (i + 5) actions.now) (conditions_in (drop (used + 2 * get_or actions.now (i + 4) 0) conditions.now))) ++ rest) result }
{
    let by_action = judge_action(p, actions[i], actions[i + 1], actions[i + 2], rows);
    let Step::On(acted) = by_action else {
        return by_action;
    };
    let by_conditions = judge_conditions(acted, actions[i + 4], conditions, used, rows);
    let Step::On(after) = by_conditions else {
        return by_conditions;
    };
    judge_times(after, actions[i + 3])
}

pub fn judge_actions(
    begin: Progress,
    actions: &[u8],
    conditions: &[u8],
    rows: &[[u8; 3]; 32],
) -> Step
    requires { Bounds begin (count_column rows.now) × (begin.last ≡ 1) }
    ensures keeps { Keeps (count_column rows.now)
        (λ q. TasksGoOn q.last × (length actions.now ≤ 1280)) result }
    ensures by_index { (file : List ℕ) (rest : List Record)
        → Drafted file (count_column rows.now) begin
        (action_records (actions_in actions.now (conditions_in conditions.now)) ++ rest)
        → Leads file (count_column rows.now) rest result }
{
    let mut p = begin;
    let mut i = 0;
    let mut used = 0;
    while 5 <= actions.len() - i {
        let step = judge_entry(p, actions, i, conditions, used, rows);
        let Step::On(after) = step else {
            return step;
        };
        p = after;
        used += 2 * tables::wide(actions[i + 4]);
        i += 5;
    }
    if i == actions.len() && used == conditions.len() {
        return Step::On(p);
    }
    judge_action(p, drafts::UNLENT, drafts::UNLENT, drafts::UNLENT, rows)
}
