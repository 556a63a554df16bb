// One crew of lists judged: its opening, its tasks and its seed.
#![tactic(auto)]

ghost use Rattle.std.specs.Prelude.{◌≡◌, List, ◌∷◌, ◌++◌, map, ℕ, ◌+◌, ◌*◌, ◌≤◌, ◌<◌, length, drop};
ghost use Rattle.study.specs.Reading.{Record, task, seed};
ghost use Rattle.tables.specs.Rows.{count_column};
ghost use Rattle.standing.specs.Reads.{Bounds};
ghost use Rattle.spelling.specs.Lists.{task_record};
ghost use Rattle.spelling.specs.Lent.{unlent_errand, first_of, errands_in};
ghost use Rattle.drafts.specs.Drafts.{TasksGoOn, Drafted, Leads, Keeps, CrewGoesOn, opening_record, first_or};

use advancing::{Progress, Step};
use judging::order;

fn judge_task(p: Progress, v: u8, start: u8, goal: u8, rows: &[[u8; 3]; 32]) -> Step
    requires { Bounds p (count_column rows.now) × TasksGoOn p.last }
    ensures keeps { Keeps (count_column rows.now) (λ q. TasksGoOn q.last × (v < 32)) result }
    ensures by_index { (file : List ℕ) (rest : List Record)
        → Drafted file (count_column rows.now) p (task v start goal ∷ rest)
        → Leads file (count_column rows.now) rest result }
{
    if p.vars <= p.tasks {
        return Step::Refused {
            number: 3,
            place: p.at,
        };
    }
    advancing::on_task(p, v, start, goal, p.at + 4, rows)
}

// The task at a place of the lent bytes: one that is not lent never goes on.
fn judge_lent(p: Progress, tasks: &[u8], i: usize, rows: &[[u8; 3]; 32]) -> Step
    requires { Bounds p (count_column rows.now) × TasksGoOn p.last × (i ≤ length tasks.now) }
    ensures keeps { Keeps (count_column rows.now) (λ q. TasksGoOn q.last × (i + 3 ≤ length tasks.now)) result }
    ensures by_index { (file : List ℕ) (rest : List Record)
        → Drafted file (count_column rows.now) p (task_record (first_or unlent_errand (errands_in (drop i tasks.now))) ∷ rest)
        → Leads file (count_column rows.now) rest result }
{
    if tasks.len() - i < 3 {
        return judge_task(p, drafts::UNLENT, drafts::UNLENT, drafts::UNLENT, rows);
    }
    judge_task(p, tasks[i], tasks[i + 1], tasks[i + 2], rows)
}

// The tasks of one crew, so many of them, from a place of the lent bytes on.
fn judge_tasks(
    begin: Progress,
    many: usize,
    tasks: &[u8],
    used: usize,
    rows: &[[u8; 3]; 32],
) -> Step
    requires { Bounds begin (count_column rows.now) × TasksGoOn begin.last × (used ≤ length tasks.now) }
    ensures keeps { Keeps (count_column rows.now) (λ q. TasksGoOn q.last × (used + 3 * many ≤ length tasks.now)) result }
    ensures by_index { (file : List ℕ) (rest : List Record)
        → Drafted file (count_column rows.now) begin (map task_record (first_of unlent_errand many (errands_in (drop used tasks.now))) ++ rest)
        → Leads file (count_column rows.now) rest result }
{
    let mut p = begin;
    let mut i = used;
    let mut left = many;
    while 0 < left {
        let step = judge_lent(p, tasks, i, rows);
        let Step::On(after) = step else {
            return step;
        };
        p = after;
        i += 3;
        left -= 1;
    }
    Step::On(p)
}

// The opening of a crew, unless it is the first.
fn judge_opening(p: Progress, first: bool) -> Step
    requires { CrewGoesOn first p.last × (p.at ≤ 30000) }
    ensures by_index { (counts : List ℕ) → Bounds p counts → Keeps counts (λ q. TasksGoOn q.last) result }
    ensures by_index_2 { (file counts : List ℕ) (rest : List Record)
        → Drafted file counts p (opening_record first ++ rest)
        → Leads file counts rest result }
{
    if first {
        return Step::On(p);
    }
    advancing::on_crew(p, p.at + 1)
}

fn judge_seed(p: Progress, n: u64) -> Step
    requires { TasksGoOn p.last × (p.at ≤ 30000) × (p.crews < 8) }
    ensures by_index { (counts : List ℕ) → Bounds p counts → Keeps counts (λ q. q.last ≡ 5) result }
    ensures by_index_2 { (file counts : List ℕ) (rest : List Record)
        → Drafted file counts p (seed n ∷ rest)
        → Leads file counts rest result }
{
    if !order::may_follow(p.tasks < p.vars, p.last, 5) {
        return Step::Refused {
            number: 3,
            place: p.at,
        };
    }
    advancing::judge_seed(p, n, p.at + 5)
}

// One crew: its opening, so many tasks from a place of the lent bytes on, and its seed.
pub fn judge_crew(
    p: Progress,
    first: bool,
    many: usize,
    n: u64,
    tasks: &[u8],
    used: usize,
    rows: &[[u8; 3]; 32],
) -> Step
    requires { Bounds p (count_column rows.now) × CrewGoesOn first p.last × (used ≤ length tasks.now) }
    ensures keeps { Keeps (count_column rows.now) (λ q. (q.last ≡ 5) × (used + 3 * many ≤ length tasks.now)) result }
    ensures by_index { (file : List ℕ) (rest : List Record)
        → Drafted file (count_column rows.now) p
        (opening_record first ++ (map task_record (first_of unlent_errand many (errands_in (drop used tasks.now))) ++ (seed n ∷ rest)))
        → Leads file (count_column rows.now) rest result }
{
    let by_opening = judge_opening(p, first);
    let Step::On(opened) = by_opening else {
        return by_opening;
    };
    let by_tasks = judge_tasks(opened, many, tasks, used, rows);
    let Step::On(tasked) = by_tasks else {
        return by_tasks;
    };
    judge_seed(tasked, n)
}
