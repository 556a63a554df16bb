// Where the reading ends: no record that may be taken, or the end record.
#![tactic(auto)]

ghost use Rattle.std.specs.Prelude.{◌≡◌, ℕ, ◌+◌, ◌≤◌, List, length, ltb};
ghost use Rattle.study.specs.Reading.{Draft, settled, ended, first_repeat};
ghost use Rattle.tables.specs.Tables.{tables};
ghost use Rattle.tables.specs.Rows.{seen};
ghost use Rattle.standing.specs.Reads.{Stands, Further, Meets, not_there_lem};

use advancing::{Progress, Step};
use judging::order;
use records::Found;

// The refusal where no whole record of a known kind stands: 2, then 3, then 1.
pub fn not_there(p: Progress, found: Found) -> Step
    ensures { result ≡ not_there_lem (ltb p.tasks p.vars) p.last found }
{
    match found {
        Found::There {
            kind: _,
            start,
            next: _,
        } => Step::Refused {
            number: 0,
            place: start,
        },
        Found::Unknown { place } => Step::Refused { number: 2, place },
        Found::Cut { kind, place } => {
            if order::may_follow(p.tasks < p.vars, p.last, kind) {
                Step::Refused { number: 1, place }
            } else {
                Step::Refused { number: 3, place }
            }
        }
        Found::Ended { place } => Step::Refused { number: 1, place },
    }
}

// Where the record of an action stands, from the place of its first condition.
fn record_place(place: usize) -> usize
    ensures { 4 ≤ place → result + 4 ≡ place }
{
    if place < 4 {
        return 0;
    }
    place - 4
}

// The end record: 7 where an action repeats an earlier one, then 21 where nobody uses a variable, then 8 where something follows.
pub fn on_end(
    p: Progress,
    len: usize,
    next: usize,
    acts: &[[u8; 6]; 256],
    setters: &mut [u8; 512],
) -> Step
    requires { p.actions ≤ 256 }
    ensures by_index { (file counts : List ℕ) (at : ℕ) → Further file at counts result }
    ensures meets { (file counts starts goals begins : List ℕ) (d : Draft)
        → len ≡ length file
        → Stands file p (tables counts (seen setters.old acts.now) starts goals) begins d
        → Meets file (settled (ended file next d (first_repeat d.study))) (tables counts (seen setters.new acts.now) starts goals) begins result }
{
    if let Some(repeat) = setters::fill(p.actions, acts, setters) {
        let act = tables::action_at(acts, repeat);
        return Step::Refused {
            number: 7,
            place: record_place(act.place),
        };
    }
    let unused = tables::wide(bits::lowest_clear(p.used));
    if unused < p.vars {
        return Step::Refused {
            number: 21,
            place: unused,
        };
    }
    if next < len {
        return Step::Refused {
            number: 8,
            place: next,
        };
    }
    Step::Done(p)
}
