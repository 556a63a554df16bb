// Reports how varied the plans of a crew are that so many seeds in a row give.
#![tactic(auto)]

ghost use Rattle.std.specs.Prelude.{◌≡◌, ◌≢◌, MatchResult};
ghost use Rattle.answer.specs.Answers.{done};
ghost use Rattle.varied.specs.Report.{ReportAllows};
ghost use Rattle.reporter.specs.Judged.{seeds_answer};

use answer::{Answer, Rule};

const MOST_SEEDS: u64 = 64;

const LARGEST_SEED: u64 = 2147483646;

// The refusal 18 or 19 of so many seeds from a first one on, if there is one.
fn judged(first: u64, n: u64) -> Result<(), Answer>
    ensures { MatchResult result
        (λ _. done 0 0 ≡ seeds_answer first n)
        (λ refusal. (refusal ≡ seeds_answer first n) × (refusal.number ≢ 0)) }
{
    if n < 1 {
        return Err(Rule::WrongCount.refusal(n));
    }
    if MOST_SEEDS < n {
        return Err(Rule::WrongCount.refusal(n));
    }
    if first < 1 {
        return Err(Rule::NoSeed.refusal(first));
    }
    if LARGEST_SEED < first {
        return Err(Rule::NoSeed.refusal(first));
    }
    if LARGEST_SEED + 1 < first + n {
        return Err(Rule::NoSeed.refusal(LARGEST_SEED + 1));
    }
    Ok(())
}

// Answer 0 gives the report's length and writes the report; a refusal alters nothing.
pub fn report(file: &[u8], crew: u64, first: u64, n: u64, report: &mut [u8]) -> Answer
    ensures { ReportAllows file.now crew first n report.old result report.new }
{
    let mut acts = [[0u8; 6]; 256];
    let mut vars = [[0u8; 3]; 32];
    let mut setters = [0u8; 512];
    let loaded = match mustering::load_for(file, crew, &mut acts, &mut vars, &mut setters) {
        Ok(loaded) => loaded,
        Err(refusal) => return Answer::from(refusal),
    };
    if let Err(refusal) = judged(first, n) {
        return refusal;
    }
    varying::report_loaded(
        file,
        first,
        n as usize,
        loaded.vars,
        loaded.actions,
        &acts,
        &vars,
        &mut setters,
        report,
    )
}
