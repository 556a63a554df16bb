// The figures before a report's rows, and the report on seeds that are all refused.
#![tactic(auto)]

ghost use Rattle.std.specs.Prelude.{◌≡◌, ◌∷◌, ℕ, ◌≤◌, eqb, length, drop};
ghost use Rattle.answer.specs.Answers.{number_of};
ghost use Rattle.answer.specs.declared.Answer.{Answer as Told};
ghost use Rattle.plain.specs.Choose.{pick};
ghost use Rattle.study.specs.Study.{Study};
ghost use Rattle.lawful.specs.Lawful.{Lawful};
ghost use Rattle.varied.specs.Outcomes.{barred, ComesTo};
ghost use Rattle.varied.specs.Report.{Reports};

use answer::{Answer, Rule};

// The figures before the rows.
pub const HEAD: usize = 5;

// The five figures: plans, refusals 10, 11 and 12, different plans.
pub fn head(plans: u8, without: u8, off: u8, ringed: u8, different: u8, report: &mut [u8])
    requires { 5 ≤ length report.old }
    ensures { report.new ≡ plans ∷ without ∷ off ∷ ringed ∷ different ∷ drop 5 report.old }
{
    report[0] = plans;
    report[1] = without;
    report[2] = off;
    report[3] = ringed;
    report[4] = different;
}

fn only(rule: Rule, counted: Rule, seeds: usize) -> u8
    requires { seeds ≤ 64 }
    ensures { result ≡ pick (eqb (number_of rule) (number_of counted)) seeds 0 }
{
    if rule == counted {
        return seeds as u8;
    }
    0
}

// All seeds are refused for this rule.
pub fn all_refused(rule: Rule, seeds: usize, report: &mut [u8]) -> Answer
    requires { seeds ≤ 64 }
    ensures { (t : Study) (first : ℕ) (a : Told)
        → Lawful t
        → ComesTo t first (barred a)
        → a.number ≡ number_of rule
        → Reports t first seeds report.old result report.new }
{
    if report.len() < HEAD {
        return Rule::NoRoom.refusal(HEAD as u64);
    }
    head(
        0,
        only(rule, Rule::NoWalk, seeds),
        only(rule, Rule::OffWalk, seeds),
        only(rule, Rule::Ring, seeds),
        0,
        report,
    );
    Answer::done(HEAD as u64, 0)
}
