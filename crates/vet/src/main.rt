// Checks the chart on standard input against the study file behind it, and prints how large it is, or the refusal.
//
// The input begins with how many bytes of actions and of pairs are announced, and the crew, two bytes each, most significant first;
// what does not come of these six is 0. Then come those bytes, and behind them the file: whatever is announced, there is room for one byte
// more than the longest file has. Of actions and pairs, what is announced and does not come is left out.
// The output is the line `chart` with how many actions and pairs there are; or a refusal's line.
#![tactic(auto)]

use answer::Answer;

const STDIN_FILENO: i32 = 0;

const STDOUT_FILENO: i32 = 1;

// A head of 6 bytes, two lists of 65,535, and one byte more than the longest file has.
const INPUT: usize = 157559;

fn main() {
    let mut input = [0u8; INPUT];
    let n = io::read_full(STDIN_FILENO, &mut input);
    print(vet_call::vet(&input, n));
}

fn print(answer: Answer) {
    if answer.number != 0 {
        telling::print_refusal(answer);
        return;
    }
    io::write_all(STDOUT_FILENO, b"chart ");
    io::print_decimal(STDOUT_FILENO, answer.first);
    io::write_all(STDOUT_FILENO, b" ");
    io::print_decimal(STDOUT_FILENO, answer.second);
    io::write_all(STDOUT_FILENO, b"\n");
}
