// The crews of a file, good records taken one after another: a crew's tasks, its seed, and what opens the next crew.
#![tactic(auto)]

ghost use Rattle.std.specs.Prelude.{List, ℕ, ◌≤◌};
ghost use Rattle.tables.specs.Tables.{ActionTables, tables};
ghost use Rattle.tables.specs.Rows.{count_column};
ghost use Rattle.standing.specs.Reads.{Safe};
ghost use Rattle.standing.specs.Halfway.{Halfway};

use advancing::{Progress, Step};
use judging::order;

const TASK: u8 = 4;

const SEED: u8 = 5;

const CREW: u8 = 9;

// Tasks that have no fault one after another, where one may come, while a variable is left.
fn tasks(file: &[u8], begin: Progress, rows: &[[u8; 3]; 32]) -> Progress
    requires { Safe file.now begin (count_column rows.now) }
    ensures safe { Safe file.now result (count_column rows.now) × (begin.at ≤ result.at) }
    ensures halfway { (acts : ActionTables) (starts goals begins : List ℕ)
        → Halfway file.now (tables (count_column rows.now) acts starts goals) begins begin
        → Halfway file.now (tables (count_column rows.now) acts starts goals) begins result }
{
    if !order::may_follow(begin.tasks < begin.vars, begin.last, TASK) {
        return begin;
    }
    let mut p = begin;
    loop {
        let at = p.at;
        if p.vars <= p.tasks {
            return p;
        }
        if !records::is_at(file, at, TASK, 3) {
            return p;
        }
        let step = advancing::on_task(p, file[at + 1], file[at + 2], file[at + 3], at + 4, rows);
        let Step::On(next) = step else {
            return p;
        };
        p = next;
    }
}

// Crews one after another, as long as their records have no fault. Whatever comes then is left to the general step.
pub fn crews(file: &[u8], begin: Progress, rows: &[[u8; 3]; 32], begins: &mut [u16; 8]) -> Progress
    requires { Safe file.now begin (count_column rows.now) }
    ensures safe { Safe file.now result (count_column rows.now) × (begin.at ≤ result.at) }
    ensures halfway { (acts : ActionTables) (starts goals : List ℕ)
        → Halfway file.now (tables (count_column rows.now) acts starts goals) begins.old begin
        → Halfway file.now (tables (count_column rows.now) acts starts goals) begins.new result }
{
    let mut p = begin;
    loop {
        p = tasks(file, p, rows);
        let at = p.at;
        if !order::may_follow(p.tasks < p.vars, p.last, SEED) {
            return p;
        }
        if !records::is_at(file, at, SEED, 4) {
            return p;
        }
        let n = advancing::seed_of(file[at + 1], file[at + 2], file[at + 3], file[at + 4]);
        let sown = entering::on_seed(p, n, at + 5, begins);
        let Step::On(after) = sown else {
            return p;
        };
        p = after;
        let on = p.at;
        if !records::is_at(file, on, CREW, 0) {
            return p;
        }
        let step = advancing::on_crew(p, on + 1);
        let Step::On(next) = step else {
            return p;
        };
        p = next;
    }
}
