// What the program `survey` does with the bytes it was given: it takes the crew, the seeds and the file from them, and reports.
#![tactic(auto)]

ghost use Rattle.std.specs.Prelude.{◌≤◌, ◌≡◌, length};
ghost use Rattle.varied.specs.Report.{ReportAllows};
ghost use Rattle.survey_call.specs.Input.{input_length, longest_report, crew_in, first_in, count_in, file_in};

use answer::Answer;

// Of the input, n bytes came. Reports into room for the longest report, so that 13 is never answered.
pub fn survey(input: &[u8], n: usize, report: &mut [u8]) -> Answer
    requires { (length input.now ≡ input_length) × (n ≤ input_length) × (length report.old ≡ longest_report) }
    ensures { ReportAllows (file_in n input.now) (crew_in input.now) (first_in input.now)
        (count_in input.now) report.old result report.new }
{
    let end = intake::file_end(24, n, input.len());
    reporter::report(
        &input[24..end],
        intake::eight_at(input, 0),
        intake::eight_at(input, 8),
        intake::eight_at(input, 16),
        report,
    )
}
