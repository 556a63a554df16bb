// Reports on the study file on standard input for one of its crews, or prints the refusal.
//
// The input begins with the crew, the first seed and how many seeds, eight bytes each, most significant first; what does not
// come of them is 0. Behind them comes the file, of which one byte more than the longest has is read.
// The output is the line `reported` with the report's length, then the report; or a refusal's line.
#![tactic(auto)]

ghost use Rattle.std.specs.Prelude.{◌≤◌, ◌≡◌, length};
ghost use Rattle.survey_call.specs.Input.{input_length};

const STDIN_FILENO: i32 = 0;

const STDOUT_FILENO: i32 = 1;

// A head of 24 bytes, and one byte more than the longest file has.
const INPUT: usize = 26507;

// The longest report: five figures, and for each of 256 positions a figure for each of 256 actions.
const ROOM: usize = 65541;

fn main() {
    let mut input = [0u8; INPUT];
    let n = io::read_full(STDIN_FILENO, &mut input);
    print(&input, n);
}

// Of the input, n bytes came.
fn print(input: &[u8], n: usize)
    requires { (length input.now ≡ input_length) × (n ≤ input_length) }
{
    let mut report = [0u8; ROOM];
    let answer = survey_call::survey(input, n, &mut report);
    if answer.number != 0 {
        telling::print_refusal(answer);
        return;
    }
    let len = answer.first as usize;
    io::write_all(STDOUT_FILENO, b"reported ");
    io::print_decimal(STDOUT_FILENO, answer.first);
    io::write_all(STDOUT_FILENO, b"\n");
    io::write_all(STDOUT_FILENO, &report[..len]);
}
