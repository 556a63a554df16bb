// Makes the lift journeys of a crew's plan of the study file on standard input, or prints the refusal.
//
// The input begins with how many bytes of ranks and of rides are announced, the crew and the start floor, two bytes each, most
// significant first; what does not come of these eight is 0. Then come those bytes, and behind them the file: whatever is announced,
// there is room for one byte more than the longest file has. Of ranks and rides, what is announced and does not come is left out.
// The output is the line `journeys` with how many there are, then the journeys, three bytes each; or a refusal's line.
#![tactic(auto)]

ghost use Rattle.std.specs.Prelude.{◌≤◌, ◌≡◌, length};
ghost use Rattle.dispatch_call.specs.Input.{input_length};

const STDIN_FILENO: i32 = 0;

const STDOUT_FILENO: i32 = 1;

// A head of 8 bytes, two lists of 65,535, and one byte more than the longest file has.
const INPUT: usize = 157561;

// Two journeys for each of 256 steps.
const ROOM: usize = 1536;

fn main() {
    let mut input = [0u8; INPUT];
    let n = io::read_full(STDIN_FILENO, &mut input);
    print(&input, n);
}

// Of the input, n bytes came.
fn print(input: &[u8], n: usize)
    requires { (length input.now ≡ input_length) × (n ≤ input_length) }
{
    let mut journeys = [0u8; ROOM];
    let answer = dispatch_call::dispatch(input, n, &mut journeys);
    if answer.number != 0 {
        telling::print_refusal(answer);
        return;
    }
    let len = 3 * answer.first as usize;
    io::write_all(STDOUT_FILENO, b"journeys ");
    io::print_decimal(STDOUT_FILENO, answer.first);
    io::write_all(STDOUT_FILENO, b"\n");
    io::write_all(STDOUT_FILENO, &journeys[..len]);
}
