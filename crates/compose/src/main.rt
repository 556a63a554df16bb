// Writes the study file that the lists on standard input stand for, or prints the refusal.
//
// The input begins with how many bytes of variables, actions, conditions, crews and tasks come, two bytes each, most
// significant first, and the situation, one byte. Then come those bytes; an entry of crews has how many of the tasks are its
// own, and its seed. What does not come is 0, and nothing behind them is read.
// The output is the line `written` with the file's length, then the file; or a refusal's line.
#![tactic(auto)]

ghost use Rattle.std.specs.Prelude.{◌≡◌, length};
ghost use Rattle.compose_call.specs.Input.{input_length};

const STDIN_FILENO: i32 = 0;

const STDOUT_FILENO: i32 = 1;

// The longest input: a head of 11 bytes, and five lists of 65,535.
const INPUT: usize = 327686;

// The longest file.
const ROOM: usize = 26482;

fn main() {
    let mut input = [0u8; INPUT];
    io::read_full(STDIN_FILENO, &mut input);
    print(&input);
}

fn print(input: &[u8])
    requires { length input.now ≡ input_length }
{
    let mut file = [0u8; ROOM];
    let answer = compose_call::compose(input, &mut file);
    if answer.number != 0 {
        telling::print_refusal(answer);
        return;
    }
    let n = answer.first as usize;
    io::write_all(STDOUT_FILENO, b"written ");
    io::print_decimal(STDOUT_FILENO, answer.first);
    io::write_all(STDOUT_FILENO, b"\n");
    io::write_all(STDOUT_FILENO, &file[..n]);
}
