// Reads a study file once and fills the tables that planning and running need.
#![tactic(auto)]

ghost use Rattle.std.specs.Prelude.{◌≡◌, true, ◌+◌, ◌≤◌, ltb, length};
ghost use Rattle.study.specs.Reading.{may_follow_lem};
ghost use Rattle.records.specs.Records.{record_at_lem};
ghost use Rattle.records.specs.declared.Found.TheVariants.{There};
ghost use Rattle.tables.specs.Tables.{Sized, Reads};
ghost use Rattle.tables.specs.Rows.{count_column, seen_all};
ghost use Rattle.standing.specs.Reads.{Safe};
ghost use Rattle.standing.specs.Halfway.{Halfway};
ghost use Rattle.loader.specs.Told.{roster_of, Named, ToldBy};

use advancing::{Progress, Step};
use answer::{Refusal, Rule};
use judging::order;
use tables::Read;

const END: u8 = 6;

// The rule of a number by which a file is refused.
fn rule_of(number: u8) -> Rule
    ensures { Named number result }
{
    match number {
        1 => Rule::Cut,
        2 => Rule::NoKind,
        3 => Rule::OutOfOrder,
        4 => Rule::TooMany,
        5 => Rule::OutOfRange,
        6 => Rule::Improper,
        7 => Rule::Repeats,
        8 => Rule::Trailing,
        _ => Rule::Unused,
    }
}

fn roster(p: Progress) -> Read
    ensures { result ≡ roster_of p }
{
    Read {
        vars: p.vars,
        actions: p.actions,
        crews: p.crews,
    }
}

// What a step tells that goes no further.
fn told(step: Step) -> Result<Read, Refusal>
    ensures { ToldBy step result }
{
    match step {
        Step::On(p) => Ok(roster(p)),
        Step::Refused { number, place } => Err(rule_of(number).at(place)),
        Step::Done(p) => Ok(roster(p)),
    }
}

// Whether the end record comes next, and may.
fn at_end(file: &[u8], p: Progress) -> bool
    requires { p.at ≤ length file.now }
    ensures { result ≡ true → (record_at_lem file.now p.at ≡ There 6 (p.at + 1) (p.at + 1))
        × (may_follow_lem (ltb p.tasks p.vars) p.last 6 ≡ true) }
{
    let at = p.at;
    if !records::is_at(file, at, END, 0) {
        return false;
    }
    order::may_follow(p.tasks < p.vars, p.last, END)
}

// Reads on from where the sections end, record by record.
fn read_on(
    file: &[u8],
    begin: Progress,
    acts: &mut [[u8; 6]; 256],
    vars: &mut [[u8; 3]; 32],
    setters: &mut [u8; 512],
    crews: &mut [u16; 8],
) -> Result<Read, Refusal>
    requires { Safe file.now begin (count_column vars.old) }
    ensures { Halfway file.now (seen_all acts.old vars.old setters.old) crews.old begin
        → Reads file.now (seen_all acts.new vars.new setters.new) crews.new result }
{
    let mut p = begin;
    loop {
        let taken = pacing::step(file, p, acts, vars, setters, crews);
        let Step::On(next) = taken else {
            return told(taken);
        };
        p = next;
    }
}

// Fills the tables by one pass over the file, and where the tasks of each crew begin. They may hold anything before: no entry
// is believed that was not written. `Sized` and `eight` say of the tables what their types say; a function is not told the
// length of an array that it is lent.
pub fn load(
    file: &[u8],
    acts: &mut [[u8; 6]; 256],
    vars: &mut [[u8; 3]; 32],
    setters: &mut [u8; 512],
    crews: &mut [u16; 8],
) -> Result<Read, Refusal>
    ensures { Sized (seen_all acts.old vars.old setters.old)
        → length crews.old ≡ 8
        → Reads file.now (seen_all acts.new vars.new setters.new) crews.new result }
{
    let begin = Progress {
        at: 0,
        situation: 0,
        vars: 0,
        actions: 0,
        tasks: 0,
        last: 0,
        own: 0,
        above: 0,
        many: 0,
        crews: 0,
        used: 0,
    };
    let placed = skimming::present(file, begin);
    let varied = skimming::variables(file, placed, vars);
    let acted = skimming::actions(file, varied, acts, vars);
    let manned = rostering::crews(file, acted, vars, crews);
    if at_end(file, manned) {
        let at = manned.at;
        return told(ending::on_end(manned, file.len(), at + 1, acts, setters));
    }
    read_on(file, manned, acts, vars, setters, crews)
}
