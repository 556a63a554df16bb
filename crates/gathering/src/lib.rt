// What belongs to an action, read on: its conditions one after another, and its situations.
#![tactic(auto)]

ghost use Rattle.std.specs.Prelude.{◌≡◌, true, List, ℕ, ◌-◌, ◌≤◌, ltb};
ghost use Rattle.study.specs.Reading.{may_follow_lem};
ghost use Rattle.tables.specs.Tables.{ActionTables, tables};
ghost use Rattle.tables.specs.Rows.{count_column, seen_all};
ghost use Rattle.advancing.specs.Steps.{with_many};
ghost use Rattle.standing.specs.Reads.{Safe};
ghost use Rattle.standing.specs.Halfway.{Halfway};

use advancing::{Progress, Step};

const CONDITION: u8 = 3;

const SITUATIONS: u8 = 7;

// Reads on while conditions of the last action follow that have no fault. Whatever comes then is left to the caller.
// How many conditions the action has is entered once, by the caller too.
fn conditions(file: &[u8], begin: Progress, rows: &[[u8; 3]; 32]) -> Progress
    requires safe { Safe file.now begin (count_column rows.now) }
    requires le_last { (2 ≤ begin.last) × (begin.last ≤ 3) }
    ensures safe_2 { Safe file.now result (count_column rows.now) }
    ensures le_last_2 { (2 ≤ result.last) × (result.last ≤ 3) × (begin.at ≤ result.at) }
    ensures halfway { (acts : ActionTables) (starts goals begins : List ℕ)
        → Halfway file.now (tables (count_column rows.now) acts starts goals) begins begin
        → Halfway file.now (tables (count_column rows.now) (with_many acts (result.actions - 1) result.many) starts goals) begins result }
{
    let mut p = begin;
    loop {
        let at = p.at;
        if !records::is_at(file, at, CONDITION, 2) {
            return p;
        }
        let v = file[at + 1];
        if judging::faults::condition_fault(rows, p.vars, p.own, p.above, v, file[at + 2]) != 0 {
            return p;
        }
        let next = Progress {
            at: at + 3,
            situation: p.situation,
            vars: p.vars,
            actions: p.actions,
            tasks: p.tasks,
            last: 3,
            own: p.own,
            above: v + 1,
            many: p.many + 1,
            crews: p.crews,
            used: bits::mark(p.used, v),
        };
        p = next;
    }
}

// After an action, its conditions and its situations.
pub fn whole_action(
    file: &[u8],
    p: Progress,
    acts: &mut [[u8; 6]; 256],
    rows: &[[u8; 3]; 32],
) -> Progress
    requires { Safe file.now p (count_column rows.now) × (p.last ≡ 2) }
    ensures safe { Safe file.now result (count_column rows.now) × (p.at ≤ result.at) }
    ensures last_value { may_follow_lem (ltb result.tasks result.vars) result.last 2 ≡ true }
    ensures by_index { (setters begins : List ℕ)
        → Halfway file.now (seen_all acts.old rows.now setters) begins p
        → Halfway file.now (seen_all acts.new rows.now setters) begins result }
{
    let run = conditions(file, p, rows);
    let at = run.at;
    if records::is_at(file, at, SITUATIONS, 1) {
        let step = entering::on_times(run, file[at + 1], at + 2, acts);
        if let Step::On(after) = step {
            return after;
        }
    }
    entering::enter_many(run.actions - 1, run.many, acts);
    run
}
