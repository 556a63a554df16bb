// The crews of lists judged one after another, and whatever no crew takes.
#![tactic(auto)]

ghost use Rattle.std.specs.Prelude.{List, [], ◌∷◌, ℕ, ◌+◌, ◌*◌, ◌≤◌, length};
ghost use Rattle.study.specs.Reading.{end};
ghost use Rattle.tables.specs.Rows.{count_column};
ghost use Rattle.standing.specs.Reads.{Bounds};
ghost use Rattle.spelling.specs.Lists.{crew_records};
ghost use Rattle.spelling.specs.Lent.{errands_in, crews_in};
ghost use Rattle.crewing.specs.Crewing.{LentAs};
ghost use Rattle.drafts.specs.Drafts.{TasksGoOn, Drafted, Leads, Keeps};

use advancing::{Progress, Step};

// How many tasks stand in so many bytes, one that is cut short counted too.
fn tasks_in(len: usize) -> usize
    ensures { (len ≤ 3 * result) × (3 * result ≤ len + 2) }
{
    let whole = len / 3;
    if whole * 3 == len {
        return whole;
    }
    whole + 1
}

// A crew as it is lent: how many tasks it takes, its seed, and whether it is lent whole.
#[derive(Clone, Copy)]
pub struct Lent {
    many: usize,
    seed: u64,
    whole: bool,
}

// The crew at a place of the lent bytes. One that is cut short, or not lent, takes all tasks that are left, and no byte of its seed
// is lent.
fn crew_at(crews: &[u8], i: usize, left: usize) -> Lent
    requires { i ≤ length crews.now }
    ensures { LentAs crews.now i left result.many result.seed result.whole }
{
    if crews.len() - i < 5 {
        return Lent {
            many: tasks_in(left),
            seed: advancing::seed_of(
                drafts::UNLENT,
                drafts::UNLENT,
                drafts::UNLENT,
                drafts::UNLENT,
            ),
            whole: false,
        };
    }
    Lent {
        many: tables::wide(crews[i]),
        seed: advancing::seed_of(crews[i + 1], crews[i + 2], crews[i + 3], crews[i + 4]),
        whole: true,
    }
}

// Bytes or tasks that are left make one crew more, each byte of whose seed is not lent.
pub fn judge_crews(begin: Progress, crews: &[u8], tasks: &[u8], rows: &[[u8; 3]; 32]) -> Step
    requires { Bounds begin (count_column rows.now) × TasksGoOn begin.last }
    ensures keeps { Keeps (count_column rows.now) (λ q. q.at ≤ 30000) result }
    ensures by_index { (file : List ℕ)
        → Drafted file (count_column rows.now) begin (crew_records (crews_in crews.now (errands_in tasks.now)))
        → Leads file (count_column rows.now) (end ∷ []) result }
{
    let mut p = begin;
    let mut i = 0;
    let mut used = 0;
    while i < crews.len() || used < tasks.len() {
        let lent = crew_at(crews, i, tasks.len() - used);
        let step = manning::judge_crew(p, i == 0, lent.many, lent.seed, tasks, used, rows);
        let Step::On(after) = step else {
            return step;
        };
        if !lent.whole {
            return step;
        }
        p = after;
        used += 3 * lent.many;
        i += 5;
    }
    Step::On(p)
}
