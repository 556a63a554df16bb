// The calls of `marrowkite` exported to C, each under its name and its contract.
#![tactic(auto)]

ghost use Rattle.std.specs.Prelude.{◌≡◌};
ghost use Rattle.checker.specs.Check.{CheckAllows};
ghost use Rattle.draw.specs.Draw.{DrawAllows};
ghost use Rattle.runs.specs.Run.{RunAllows};
ghost use Rattle.planning.specs.Planning.{PlanAllows};
ghost use Rattle.planning.specs.Seeded.{SeededAllows};
ghost use Rattle.spelling.specs.Write.{WriteAllows};
ghost use Rattle.varied.specs.Report.{ReportAllows};
ghost use Rattle.charts.specs.Answers.{ChartAllows};
ghost use Rattle.replays.specs.Replay.{ReplayAllows};
ghost use Rattle.journeys.specs.Allowed.{JourneysAllows};
ghost use Rattle.marrowkite.specs.Told.{RecordAllows};

use answer::Answer;
use marrowkite::Record;

#[unsafe(no_mangle)]
pub extern "C" fn marrowkite_record_at(file: &[u8], at: u64) -> Record
    ensures { RecordAllows file.now at result }
{
    marrowkite::marrowkite_record_at(file, at)
}

#[unsafe(no_mangle)]
pub extern "C" fn marrowkite_check(file: &[u8]) -> Answer
    ensures { CheckAllows file.now result }
{
    marrowkite::marrowkite_check(file)
}

#[unsafe(no_mangle)]
pub extern "C" fn marrowkite_plan(file: &[u8], crew: u64, ranks: &[u8], plan: &mut [u8]) -> Answer
    ensures { PlanAllows file.now crew ranks.now plan.old result plan.new }
{
    marrowkite::marrowkite_plan(file, crew, ranks, plan)
}

#[unsafe(no_mangle)]
pub extern "C" fn marrowkite_plan_seeded(file: &[u8], crew: u64, plan: &mut [u8]) -> Answer
    ensures { SeededAllows file.now crew plan.old result plan.new }
{
    marrowkite::marrowkite_plan_seeded(file, crew, plan)
}

#[unsafe(no_mangle)]
pub extern "C" fn marrowkite_run(file: &[u8], crew: u64, plan: &[u8], state: &mut [u8]) -> Answer
    ensures { RunAllows file.now crew plan.now state.old result state.new }
{
    marrowkite::marrowkite_run(file, crew, plan, state)
}

#[unsafe(no_mangle)]
pub extern "C" fn marrowkite_draw(seed: u64, count: u64, ranks: &mut [u8]) -> Answer
    ensures { DrawAllows seed count ranks.old result ranks.new }
{
    marrowkite::marrowkite_draw(seed, count, ranks)
}

#[unsafe(no_mangle)]
pub extern "C" fn marrowkite_write(
    situation: u8,
    variables: &[u8],
    actions: &[u8],
    conditions: &[u8],
    crews: &[u8],
    tasks: &[u8],
    file: &mut [u8],
) -> Answer
    ensures { WriteAllows situation variables.now actions.now conditions.now crews.now tasks.now
        file.old result file.new }
{
    marrowkite::marrowkite_write(
        situation, variables, actions, conditions, crews, tasks, file,
    )
}

#[unsafe(no_mangle)]
pub extern "C" fn marrowkite_report(
    file: &[u8],
    crew: u64,
    first: u64,
    n: u64,
    report: &mut [u8],
) -> Answer
    ensures { ReportAllows file.now crew first n report.old result report.new }
{
    marrowkite::marrowkite_report(file, crew, first, n, report)
}

#[unsafe(no_mangle)]
pub extern "C" fn marrowkite_chart(file: &[u8], crew: u64, actions: &[u8], pairs: &[u8]) -> Answer
    ensures { ChartAllows file.now crew actions.now pairs.now result }
{
    marrowkite::marrowkite_chart(file, crew, actions, pairs)
}

#[unsafe(no_mangle)]
pub extern "C" fn marrowkite_replay(
    file: &[u8],
    crew: u64,
    log: &[u8],
    occupant: &mut [u8; 40],
) -> Answer
    ensures { ReplayAllows file.now crew log.now occupant.old result occupant.new }
{
    marrowkite::marrowkite_replay(file, crew, log, occupant)
}

#[unsafe(no_mangle)]
pub extern "C" fn marrowkite_journeys(
    file: &[u8],
    crew: u64,
    ranks: &[u8],
    rides: &[u8],
    start: u64,
    journeys: &mut [u8],
) -> Answer
    ensures { JourneysAllows file.now crew ranks.now rides.now start journeys.old result journeys.new }
{
    marrowkite::marrowkite_journeys(file, crew, ranks, rides, start, journeys)
}
