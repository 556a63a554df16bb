// Replays the access log on standard input on the study file behind it, and prints what it comes to, and the occupant event by event.
//
// The input begins with the crew, eight bytes, and how many bytes of log are announced, four bytes, most significant first; what does
// not come of these twelve is 0. Then comes the log, and behind it the file: there is room for one event more than a log may have, and
// for one byte more than the longest file has. Of the log, what is announced and does not come is left out.
// The output is the line `replayed` with how many events were done and held, or a refusal's line. Behind it stand the occupant's
// records, 40 bytes each: at the crew's start, and after each event; of a log that is refused, those before the event that is.
#![tactic(auto)]

ghost use Rattle.std.specs.Prelude.{◌≤◌, ◌≡◌, length};
ghost use Rattle.trail_call.specs.Input.{input_length};

use answer::Answer;

const STDIN_FILENO: i32 = 0;

const STDOUT_FILENO: i32 = 1;

// A head of 12 bytes, 16,385 events, and one byte more than the longest file has.
const INPUT: usize = 92035;

fn main() {
    let mut input = [0u8; INPUT];
    let n = io::read_full(STDIN_FILENO, &mut input);
    print(&input, n);
}

// Of the input, n bytes came.
fn print(input: &[u8], n: usize)
    requires { (length input.now ≡ input_length) × (n ≤ input_length) }
{
    let mut occupant = [0u8; 40];
    print_answer(trail_call::replay_all(input, n, &mut occupant));
    print_records(input, n);
}

fn print_answer(answer: Answer) {
    if answer.number != 0 {
        telling::print_refusal(answer);
        return;
    }
    io::write_all(STDOUT_FILENO, b"replayed ");
    io::print_decimal(STDOUT_FILENO, answer.first);
    io::write_all(STDOUT_FILENO, b" ");
    io::print_decimal(STDOUT_FILENO, answer.second);
    io::write_all(STDOUT_FILENO, b"\n");
}

// The records at the start and after each whole event, as long as the log up to there is not refused.
fn print_records(input: &[u8], n: usize)
    requires { (length input.now ≡ input_length) × (n ≤ input_length) }
{
    let file = intake::part_end(
        12,
        intake::four_at(input, 8),
        intake::file_end(12, n, input.len()),
    );
    for events in 0..=(file - 12) / 4 {
        let mut occupant = [0u8; 40];
        if trail_call::replay_first(input, n, 4 * events, &mut occupant).number != 0 {
            return;
        }
        io::write_all(STDOUT_FILENO, &occupant);
    }
}
