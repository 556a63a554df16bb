// The library that a host links: the calls of documents 01 and 02, with their contracts; `marrowkite_c` exports them to C.
#![tactic(auto)]

ghost use Rattle.std.specs.Prelude.{◌≡◌};
ghost use Rattle.checker.specs.Check.{CheckAllows};
ghost use Rattle.draw.specs.Draw.{DrawAllows};
ghost use Rattle.runs.specs.Run.{RunAllows};
ghost use Rattle.planning.specs.Planning.{PlanAllows};
ghost use Rattle.planning.specs.Seeded.{SeededAllows};
ghost use Rattle.spelling.specs.Write.{WriteAllows};
ghost use Rattle.varied.specs.Report.{ReportAllows};
ghost use Rattle.charts.specs.Answers.{ChartAllows};
ghost use Rattle.replays.specs.Replay.{ReplayAllows};
ghost use Rattle.journeys.specs.Allowed.{JourneysAllows};
ghost use Rattle.marrowkite.specs.Told.{RecordAllows};

use answer::Answer;
use records::Found;

// One record in numbers: 0 with its kind, where its body starts, the body's length and the place after it; else 2 or 1,
// with the refusal's place as start and next.
#[repr(C)]
#[derive(Clone, Copy)]
pub struct Record {
    pub number: u64,
    pub kind: u64,
    pub start: u64,
    pub len: u64,
    pub next: u64,
}

fn refused(number: u64, place: usize) -> Record
    ensures { result ≡ record { number = number; kind = 0; start = place; len = 0; next = place } }
{
    Record {
        number,
        kind: 0,
        start: place as u64,
        len: 0,
        next: place as u64,
    }
}

pub fn marrowkite_record_at(file: &[u8], at: u64) -> Record
    ensures { RecordAllows file.now at result }
{
    let found = records::record_at(file, at as usize);
    match found {
        Found::There { kind, start, next } => Record {
            number: 0,
            kind: kind as u64,
            start: start as u64,
            len: (next - start) as u64,
            next: next as u64,
        },
        Found::Unknown { place } => refused(2, place),
        Found::Cut { kind: _, place } => refused(1, place),
        Found::Ended { place } => refused(1, place),
    }
}

pub fn marrowkite_check(file: &[u8]) -> Answer
    ensures { CheckAllows file.now result }
{
    checker::check(file)
}

pub fn marrowkite_plan(file: &[u8], crew: u64, ranks: &[u8], plan: &mut [u8]) -> Answer
    ensures { PlanAllows file.now crew ranks.now plan.old result plan.new }
{
    planner::plan(file, crew, ranks, plan)
}

pub fn marrowkite_plan_seeded(file: &[u8], crew: u64, plan: &mut [u8]) -> Answer
    ensures { SeededAllows file.now crew plan.old result plan.new }
{
    planner::plan_seeded(file, crew, plan)
}

pub fn marrowkite_run(file: &[u8], crew: u64, plan: &[u8], state: &mut [u8]) -> Answer
    ensures { RunAllows file.now crew plan.now state.old result state.new }
{
    running::run(file, crew, plan, state)
}

pub fn marrowkite_draw(seed: u64, count: u64, ranks: &mut [u8]) -> Answer
    ensures { DrawAllows seed count ranks.old result ranks.new }
{
    draw::draw(seed, count, ranks)
}

pub fn marrowkite_write(
    situation: u8,
    variables: &[u8],
    actions: &[u8],
    conditions: &[u8],
    crews: &[u8],
    tasks: &[u8],
    file: &mut [u8],
) -> Answer
    ensures { WriteAllows situation variables.now actions.now conditions.now crews.now tasks.now
        file.old result file.new }
{
    writer::write(
        situation, variables, actions, conditions, crews, tasks, file,
    )
}

pub fn marrowkite_report(file: &[u8], crew: u64, first: u64, n: u64, report: &mut [u8]) -> Answer
    ensures { ReportAllows file.now crew first n report.old result report.new }
{
    reporter::report(file, crew, first, n, report)
}

pub fn marrowkite_chart(file: &[u8], crew: u64, actions: &[u8], pairs: &[u8]) -> Answer
    ensures { ChartAllows file.now crew actions.now pairs.now result }
{
    charter::chart(file, crew, actions, pairs)
}

pub fn marrowkite_replay(file: &[u8], crew: u64, log: &[u8], occupant: &mut [u8; 40]) -> Answer
    ensures { ReplayAllows file.now crew log.now occupant.old result occupant.new }
{
    replaying::replay(file, crew, log, occupant)
}

pub fn marrowkite_journeys(
    file: &[u8],
    crew: u64,
    ranks: &[u8],
    rides: &[u8],
    start: u64,
    journeys: &mut [u8],
) -> Answer
    ensures { JourneysAllows file.now crew ranks.now rides.now start journeys.old result journeys.new }
{
    dispatcher::journeys(file, crew, ranks, rides, start, journeys)
}
