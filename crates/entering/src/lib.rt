// A record without fault entered in the tables.
#![tactic(auto)]

ghost use Rattle.std.specs.Prelude.{◌≡◌, List, ℕ, ◌≤◌, ◌<◌, ◌+◌, ◌-◌, ◌*◌};
ghost use Rattle.tables.specs.Rows.{count_column, start_column, goal_column, seen};
ghost use Rattle.judging.specs.Faults.{variable_fault_lem, action_fault_lem, condition_fault_lem, seed_fault_lem, times_fault_lem};
ghost use Rattle.advancing.specs.Steps.{after_variable, after_action, after_condition, after_seed, after_times, unless_fault, stored, stored_action, with_many, stored_many, out_by_lem};

use advancing::{Progress, Step};
use judging::faults;

pub fn on_variable(p: Progress, n: u8, next: usize, rows: &mut [[u8; 3]; 32]) -> Step
    ensures value { result ≡ unless_fault (variable_fault_lem p.vars n) p (after_variable p next) }
    ensures rows_after { (count_column rows.new ≡ stored (variable_fault_lem p.vars n) (count_column rows.old) p.vars n)
        × (start_column rows.new ≡ start_column rows.old)
        × (goal_column rows.new ≡ goal_column rows.old) }
{
    let vars = p.vars;
    let fault = faults::variable_fault(vars, n);
    if fault != 0 {
        return Step::Refused {
            number: fault,
            place: p.at,
        };
    }
    let row = rows[vars];
    rows[vars] = [n, row[1], row[2]];
    Step::On(Progress {
        at: next,
        situation: p.situation,
        vars: vars + 1,
        actions: p.actions,
        tasks: p.tasks,
        last: 1,
        own: p.own,
        above: p.above,
        many: p.many,
        crews: p.crews,
        used: p.used,
    })
}

// The seed stands behind the crew's tasks: where the first of them stands is entered.
pub fn on_seed(p: Progress, n: u64, next: usize, crews: &mut [u16; 8]) -> Step
    requires { (p.crews < 8) × (4 * p.tasks ≤ p.at) × (p.at < 65536) }
    ensures value { result ≡ unless_fault (seed_fault_lem n) p (after_seed p next) }
    ensures crews_after { crews.new ≡ stored (seed_fault_lem n) crews.old p.crews (p.at - 4 * p.tasks) }
{
    let step = advancing::judge_seed(p, n, next);
    let Step::On(_) = step else {
        return step;
    };
    let c = p.crews;
    crews[c] = (p.at - 4 * p.tasks) as u16;
    step
}

// Enters how many conditions an action has, and 64 more where it is out of force.
pub fn enter_many(i: usize, byte: u8, acts: &mut [[u8; 6]; 256])
    requires { i < 256 }
    ensures { (setters : List ℕ) → seen setters acts.new ≡ with_many (seen setters acts.old) i byte }
{
    let row = acts[i];
    acts[i] = [row[0], row[1], row[2], byte, row[4], row[5]];
}

pub fn on_condition(
    p: Progress,
    v: u8,
    q: u8,
    next: usize,
    rows: &[[u8; 3]; 32],
    acts: &mut [[u8; 6]; 256],
) -> Step
    requires { (p.vars ≤ 32) × (p.many ≤ 32) × (1 ≤ p.actions) × (p.actions ≤ 256) }
    ensures value { result ≡ unless_fault (condition_fault_lem (count_column rows.now) p.vars p.own p.above v q) p (after_condition p v next) }
    ensures by_index { (setters : List ℕ) → seen setters acts.new
        ≡ stored_many (condition_fault_lem (count_column rows.now) p.vars p.own p.above v q) (seen setters acts.old) (p.actions - 1) (p.many + 1) }
{
    let step = advancing::judge_condition(p, v, q, next, rows);
    let Step::On(after) = step else {
        return step;
    };
    enter_many(p.actions - 1, after.many, acts);
    step
}

pub fn on_action(
    p: Progress,
    v: u8,
    pre: u8,
    post: u8,
    next: usize,
    rows: &[[u8; 3]; 32],
    acts: &mut [[u8; 6]; 256],
) -> Step
    requires { (p.vars ≤ 32) × (next < 65536) }
    ensures value { result ≡ unless_fault (action_fault_lem (count_column rows.now) p.vars p.actions v pre post) p (after_action p v next) }
    ensures by_index { (setters : List ℕ) → seen setters acts.new
        ≡ stored_action (action_fault_lem (count_column rows.now) p.vars p.actions v pre post) p.actions v pre post next
        (seen setters acts.old) }
{
    let step = advancing::judge_action(p, v, pre, post, next, rows);
    let Step::On(_) = step else {
        return step;
    };
    let i = p.actions;
    acts[i] = [
        v,
        pre,
        post,
        0,
        (next % 256) as u8,
        (next / 256 % 256) as u8,
    ];
    step
}

pub fn on_times(p: Progress, n: u8, next: usize, acts: &mut [[u8; 6]; 256]) -> Step
    requires { (p.situation ≤ 7) × (p.many ≤ 32) × (1 ≤ p.actions) × (p.actions ≤ 256) }
    ensures value { result ≡ unless_fault (times_fault_lem n) p (after_times p next) }
    ensures by_index { (setters : List ℕ) → seen setters acts.new
        ≡ stored_many (times_fault_lem n) (seen setters acts.old) (p.actions - 1) (p.many + out_by_lem n p.situation) }
{
    let step = advancing::judge_times(p, n, next);
    let Step::On(_) = step else {
        return step;
    };
    enter_many(
        p.actions - 1,
        p.many + advancing::out_by(n, p.situation),
        acts,
    );
    step
}
