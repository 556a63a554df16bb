// What the program `trail` does with the bytes it was given: it cuts them into a crew, a log and a file, and replays the log or its beginning.
#![tactic(auto)]

ghost use Rattle.std.specs.Prelude.{◌≤◌, ◌≡◌, length, take};
ghost use Rattle.replays.specs.Replay.{ReplayAllows};
ghost use Rattle.trail_call.specs.Input.{input_length, crew_in, log_in, file_in};

use answer::Answer;

// Replays the whole log. Of the input, n bytes came.
pub fn replay_all(input: &[u8], n: usize, occupant: &mut [u8; 40]) -> Answer
    requires { (length input.now ≡ input_length) × (n ≤ input_length) }
    ensures { ReplayAllows (file_in n input.now) (crew_in input.now) (log_in n input.now)
        occupant.old result occupant.new }
{
    replay_first(input, n, intake::four_at(input, 8), occupant)
}

// Replays so many bytes of the log, or all if there are no more.
pub fn replay_first(input: &[u8], n: usize, len: usize, occupant: &mut [u8; 40]) -> Answer
    requires { (length input.now ≡ input_length) × (n ≤ input_length) }
    ensures { ReplayAllows (file_in n input.now) (crew_in input.now) (take len (log_in n input.now))
        occupant.old result occupant.new }
{
    let end = intake::file_end(12, n, input.len());
    let file = intake::part_end(12, intake::four_at(input, 8), end);
    let cut = intake::part_end(12, len, file);
    replaying::replay(
        &input[file..end],
        intake::eight_at(input, 0),
        &input[12..cut],
        occupant,
    )
}
