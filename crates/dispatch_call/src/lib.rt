// What the program `dispatch` does with the bytes it was given: it cuts them into ranks, rides and file, and makes the journeys.
#![tactic(auto)]

ghost use Rattle.std.specs.Prelude.{◌≤◌, ◌≡◌, length};
ghost use Rattle.journeys.specs.Allowed.{JourneysAllows};
ghost use Rattle.dispatch_call.specs.Input.{input_length, most_bytes, crew_in, start_in, ranks_in, rides_in, file_in};

use answer::Answer;

// Of the input, n bytes came. Into room for the journeys of any plan, so that 13 is never answered.
pub fn dispatch(input: &[u8], n: usize, journeys: &mut [u8]) -> Answer
    requires { (length input.now ≡ input_length) × (n ≤ input_length) × (length journeys.old ≡ most_bytes) }
    ensures { JourneysAllows (file_in n input.now) (crew_in input.now) (ranks_in n input.now)
        (rides_in n input.now) (start_in input.now) journeys.old result journeys.new }
{
    let end = intake::file_end(8, n, input.len());
    let rides = intake::part_end(8, intake::pair_at(input, 0), end);
    let file = intake::part_end(rides, intake::pair_at(input, 2), end);
    dispatcher::journeys(
        &input[file..end],
        intake::pair_at(input, 4) as u64,
        &input[8..rides],
        &input[rides..file],
        intake::pair_at(input, 6) as u64,
        journeys,
    )
}
