// What the program `vet` does with the bytes it was given: it cuts them into actions, pairs and file, and checks the chart.
#![tactic(auto)]

ghost use Rattle.std.specs.Prelude.{◌≤◌, ◌≡◌, length};
ghost use Rattle.charts.specs.Answers.{ChartAllows};
ghost use Rattle.vet_call.specs.Input.{input_length, crew_in, actions_in, pairs_in, file_in};

use answer::Answer;

// Of the input, n bytes came.
pub fn vet(input: &[u8], n: usize) -> Answer
    requires { (length input.now ≡ input_length) × (n ≤ input_length) }
    ensures { ChartAllows (file_in n input.now) (crew_in input.now) (actions_in n input.now) (pairs_in n input.now) result }
{
    let end = intake::file_end(6, n, input.len());
    let pairs = intake::part_end(6, intake::pair_at(input, 0), end);
    let file = intake::part_end(pairs, intake::pair_at(input, 2), end);
    charter::chart(
        &input[file..end],
        intake::pair_at(input, 4) as u64,
        &input[6..pairs],
        &input[pairs..file],
    )
}
