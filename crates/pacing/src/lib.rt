// One record read, judged and taken.
#![tactic(auto)]

ghost use Rattle.std.specs.Prelude.{◌≡◌, true, ℕ, ltb};
ghost use Rattle.study.specs.Reading.{Draft, verdict_at, may_follow_lem};
ghost use Rattle.records.specs.Records.{record_at_lem};
ghost use Rattle.records.specs.declared.Found.TheVariants.{There};
ghost use Rattle.tables.specs.Rows.{count_column, seen_all};
ghost use Rattle.standing.specs.Reads.{Safe, Stands, Further, Meets};

use advancing::{Progress, Step};
use judging::order;
use records::Found;

// Takes a record that is there and may come. The place after it is the kind's own, so that the next record is read without
// waiting for this one's length.
fn take(
    file: &[u8],
    p: Progress,
    kind: u8,
    start: usize,
    acts: &mut [[u8; 6]; 256],
    vars: &mut [[u8; 3]; 32],
    setters: &mut [u8; 512],
    crews: &mut [u16; 8],
) -> Step
    requires safe { Safe file.now p (count_column vars.old) }
    requires by_index { (next : ℕ) × (record_at_lem file.now p.at ≡ There kind start next) × (may_follow_lem (ltb p.tasks p.vars) p.last kind ≡ true) }
    ensures further { Further file.now p.at (count_column vars.new) result }
    ensures meets { (d : Draft)
        → Stands file.now p (seen_all acts.old vars.old setters.old) crews.old d
        → Meets file.now (verdict_at file.now p.at d) (seen_all acts.new vars.new setters.new) crews.new result }
{
    match kind {
        1 => entering::on_variable(p, file[start], start + 1, vars),
        2 => entering::on_action(
            p,
            file[start],
            file[start + 1],
            file[start + 2],
            start + 3,
            vars,
            acts,
        ),
        3 => entering::on_condition(p, file[start], file[start + 1], start + 2, vars, acts),
        4 => advancing::on_task(
            p,
            file[start],
            file[start + 1],
            file[start + 2],
            start + 3,
            vars,
        ),
        5 => entering::on_seed(
            p,
            advancing::seed_of(
                file[start],
                file[start + 1],
                file[start + 2],
                file[start + 3],
            ),
            start + 4,
            crews,
        ),
        7 => entering::on_times(p, file[start], start + 1, acts),
        8 => advancing::on_present(p, file[start], start + 1),
        9 => advancing::on_crew(p, start),
        _ => ending::on_end(p, file.len(), start, acts, setters),
    }
}

// Reads the next record and takes it.
pub fn step(
    file: &[u8],
    p: Progress,
    acts: &mut [[u8; 6]; 256],
    vars: &mut [[u8; 3]; 32],
    setters: &mut [u8; 512],
    crews: &mut [u16; 8],
) -> Step
    requires { Safe file.now p (count_column vars.old) }
    ensures further { Further file.now p.at (count_column vars.new) result }
    ensures meets { (d : Draft)
        → Stands file.now p (seen_all acts.old vars.old setters.old) crews.old d
        → Meets file.now (verdict_at file.now p.at d) (seen_all acts.new vars.new setters.new) crews.new result }
{
    let at = p.at;
    let found = reader::record_from(file, at);
    let Found::There {
        kind,
        start,
        next: _,
    } = found
    else {
        return ending::not_there(p, found);
    };
    if !order::may_follow(p.tasks < p.vars, p.last, kind) {
        return Step::Refused {
            number: 3,
            place: at,
        };
    }
    take(file, p, kind, start, acts, vars, setters, crews)
}
