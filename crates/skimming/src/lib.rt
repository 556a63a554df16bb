// The sections of a file up to its last action, good records taken one after another: the situation, variables, actions.
#![tactic(auto)]

ghost use Rattle.std.specs.Prelude.{List, ℕ, ◌≤◌, length};
ghost use Rattle.tables.specs.Tables.{ActionTables, Tables, tables};
ghost use Rattle.tables.specs.Rows.{count_column, seen_all};
ghost use Rattle.standing.specs.Reads.{Safe};
ghost use Rattle.standing.specs.Halfway.{Halfway, beside};

use advancing::{Progress, Step};
use judging::order;

const VARIABLE: u8 = 1;

const ACTION: u8 = 2;

const SITUATION: u8 = 8;

// The situation, where one stands first. Whatever else comes is left to the general step.
pub fn present(file: &[u8], begin: Progress) -> Progress
    requires { begin.at ≤ length file.now }
    ensures by_index { (counts : List ℕ) → Safe file.now begin counts → Safe file.now result counts × (begin.at ≤ result.at) }
    ensures halfway { (t : Tables) (begins : List ℕ)
        → Safe file.now begin t.counts
        → Halfway file.now t begins begin
        → Halfway file.now t begins result }
{
    let at = begin.at;
    if !order::may_follow(begin.tasks < begin.vars, begin.last, SITUATION) {
        return begin;
    }
    if !records::is_at(file, at, SITUATION, 1) {
        return begin;
    }
    let step = advancing::on_present(begin, file[at + 1], at + 2);
    let Step::On(next) = step else {
        return begin;
    };
    next
}

// Variables that have no fault one after another, where one may come. Whatever comes then is left to the general step.
pub fn variables(file: &[u8], begin: Progress, rows: &mut [[u8; 3]; 32]) -> Progress
    requires { Safe file.now begin (count_column rows.old) }
    ensures safe { Safe file.now result (count_column rows.new) × (begin.at ≤ result.at) }
    ensures halfway { (acts : ActionTables) (begins : List ℕ)
        → Halfway file.now (beside rows.old acts) begins begin
        → Halfway file.now (beside rows.new acts) begins result }
{
    if !order::may_follow(begin.tasks < begin.vars, begin.last, VARIABLE) {
        return begin;
    }
    let mut p = begin;
    loop {
        let at = p.at;
        if !records::is_at(file, at, VARIABLE, 1) {
            return p;
        }
        let step = entering::on_variable(p, file[at + 1], at + 2, rows);
        let Step::On(next) = step else {
            return p;
        };
        p = next;
    }
}

// Actions that have no fault one after another, each with all that belongs to it, where one may come. Whatever comes then is
// left to the general step.
pub fn actions(
    file: &[u8],
    begin: Progress,
    acts: &mut [[u8; 6]; 256],
    rows: &[[u8; 3]; 32],
) -> Progress
    requires { Safe file.now begin (count_column rows.now) }
    ensures safe { Safe file.now result (count_column rows.now) × (begin.at ≤ result.at) }
    ensures by_index { (setters begins : List ℕ)
        → Halfway file.now (seen_all acts.old rows.now setters) begins begin
        → Halfway file.now (seen_all acts.new rows.now setters) begins result }
{
    if !order::may_follow(begin.tasks < begin.vars, begin.last, ACTION) {
        return begin;
    }
    let mut p = begin;
    loop {
        let at = p.at;
        if !records::is_at(file, at, ACTION, 3) {
            return p;
        }
        let step = entering::on_action(
            p,
            file[at + 1],
            file[at + 2],
            file[at + 3],
            at + 4,
            rows,
            acts,
        );
        let Step::On(next) = step else {
            return p;
        };
        p = gathering::whole_action(file, next, acts, rows);
    }
}
