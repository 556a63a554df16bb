// Judges the lists that a study file is to be written from: what the reader says of the bytes that they stand for, without
// those bytes.
#![tactic(auto)]

ghost use Rattle.std.specs.Prelude.{◌≡◌, List, [], ◌∷◌, ◌++◌, map, ℕ, ◌≤◌};
ghost use Rattle.study.specs.Reading.{Record, variable, end};
ghost use Rattle.tables.specs.Rows.{count_column};
ghost use Rattle.standing.specs.Reads.{Bounds, origin};
ghost use Rattle.spelling.specs.Lists.{Lists, present_record, file_of};
ghost use Rattle.spelling.specs.Lent.{lent};
ghost use Rattle.drafts.specs.Drafts.{NoVariableYet, VariablesGoOn, BehindVariables, Drafted, Leads, Keeps};
ghost use Rattle.drafting.specs.Judges.{JudgedAs, RepeatedIn, refusal_of};

use advancing::{Progress, Step};

// The lists load, as a file of so many bytes; or the reader's refusal.
#[derive(Clone, Copy)]
pub enum Judged {
    Good(usize),
    Refused { number: u8, place: usize },
}

// The situation, unless it is not written.
fn judge_present(n: u8) -> Step
    ensures by_index { (counts : List ℕ) → Keeps counts (λ q. NoVariableYet q.last × (n ≤ 7)) result }
    ensures by_index_2 { (file counts : List ℕ) (rest : List Record)
        → Drafted file counts origin (present_record n ++ rest)
        → Leads file counts rest result }
{
    let p = Progress {
        at: 0,
        situation: 0,
        vars: 0,
        actions: 0,
        tasks: 0,
        last: 0,
        own: 0,
        above: 0,
        many: 0,
        crews: 0,
        used: 0,
    };
    if n == 0 {
        return Step::On(p);
    }
    advancing::on_present(p, n, 2)
}

fn judge_variable(p: Progress, n: u8, rows: &mut [[u8; 3]; 32]) -> Step
    requires { Bounds p (count_column rows.old) × VariablesGoOn p.last }
    ensures keeps { Keeps (count_column rows.new) (λ q. (q.last ≡ 1) × (1 ≤ q.at)) result }
    ensures by_index { (file : List ℕ) (rest : List Record)
        → Drafted file (count_column rows.old) p (variable n ∷ rest)
        → Leads file (count_column rows.new) rest result }
{
    entering::on_variable(p, n, p.at + 2, rows)
}

// Some variable: without one no other record may come.
fn judge_variables(begin: Progress, variables: &[u8], rows: &mut [[u8; 3]; 32]) -> Step
    requires { Bounds begin (count_column rows.old) × NoVariableYet begin.last }
    ensures keeps { Keeps (count_column rows.new) (λ q. (q.last ≡ 1) × (1 ≤ q.at)) result }
    ensures by_index { (file : List ℕ) (rest : List Record)
        → BehindVariables rest
        → Drafted file (count_column rows.old) begin (map variable variables.now ++ rest)
        → Leads file (count_column rows.new) rest result }
{
    if variables.len() == 0 {
        return Step::Refused {
            number: 3,
            place: begin.at,
        };
    }
    let mut p = begin;
    let mut i = 0;
    while i < variables.len() {
        let step = judge_variable(p, variables[i], rows);
        let Step::On(after) = step else {
            return step;
        };
        p = after;
        i += 1;
    }
    Step::On(p)
}

fn refusal(step: Step) -> Judged
    ensures { result ≡ refusal_of step }
{
    match step {
        Step::Refused { number, place } => Judged::Refused { number, place },
        _ => Judged::Refused {
            number: 0,
            place: 0,
        },
    }
}

// The end, which may come behind a seed and decides 7 and 21.
fn judge_end(p: Progress, repeat: Option<usize>) -> Judged
    requires { p.at ≤ 30000 }
    ensures { (l : Lists) (counts : List ℕ)
        → Drafted (file_of l) counts p (end ∷ [])
        → RepeatedIn l repeat
        → JudgedAs (file_of l) result }
{
    if p.last != 5 {
        return Judged::Refused {
            number: 3,
            place: p.at,
        };
    }
    if let Some(place) = repeat {
        return Judged::Refused { number: 7, place };
    }
    let unused = tables::wide(bits::lowest_clear(p.used));
    if unused < p.vars {
        return Judged::Refused {
            number: 21,
            place: unused,
        };
    }
    Judged::Good(p.at + 1)
}

// What the reader says of the file that the lists stand for.
pub fn judge(
    situation: u8,
    variables: &[u8],
    actions: &[u8],
    conditions: &[u8],
    crews: &[u8],
    tasks: &[u8],
) -> Judged
    ensures { JudgedAs (file_of (lent situation variables.now actions.now conditions.now crews.now tasks.now)) result }
{
    let by_situation = judge_present(situation);
    let Step::On(opened) = by_situation else {
        return refusal(by_situation);
    };
    let mut rows = [[0u8; 3]; 32];
    let by_variables = judge_variables(opened, variables, &mut rows);
    let Step::On(begun) = by_variables else {
        return refusal(by_variables);
    };
    let by_actions = acting::judge_actions(begun, actions, conditions, &rows);
    let Step::On(acted) = by_actions else {
        return refusal(by_actions);
    };
    let by_crews = crewing::judge_crews(acted, crews, tasks, &rows);
    let Step::On(manned) = by_crews else {
        return refusal(by_crews);
    };
    let repeat = repeats::first_repeat(situation, begun.at, actions);
    judge_end(manned, repeat)
}
