// Makes the calls that standard input asks for and prints what each answers. A line is a word and its arguments, each behind
// one space: numbers in decimal, bytes in hexadecimal. tests/cases.py makes the input and says what is to be printed.
//
//     # WORDS        begins a case: it is printed, and the buffer is filled with 170
//     file N BYTES   the file keeps its first N bytes, and these follow
//     again Q N      behind the file N bytes more, each as the one that stands Q before it
//
// The other words are calls: `asking` has those that write nothing, `lending` those that are lent the front of the buffer, `logs` the
// one that is lent an occupant's record.
// Each is printed, then the length of the file that it gets, then what it answers.
#![tactic(auto)]

mod asking;
mod lending;
mod logs;
mod show;
mod words;

ghost use Rattle.std.specs.Prelude.{◌≡◌, length};

use words::{bytes, front, number, word};

const STDIN_FILENO: i32 = 0;

// The words, as `words::word` reads them.
const CASE: u64 = 0x23;

const FILE: u64 = 0x66696c65;

const AGAIN: u64 = 0x616761696e;

// One byte more than the longest file has, or a file and a log of 16,386 events.
const ROOM: usize = 66560;

// The longest input.
const INPUT: usize = 524288;

fn main() {
    let mut text = room();
    let n = io::read_full(STDIN_FILENO, &mut text);
    lines(front(&text, n));
}

// Room for the whole input. A call's result has a length that its contract says, which no proof counts.
fn room() -> [u8; INPUT]
    ensures { length result ≡ INPUT }
{
    [0u8; INPUT]
}

fn lines(text: &[u8]) {
    let mut file = [0u8; ROOM];
    let mut n = 0usize;
    let mut buffer = [170u8; 272];
    for ended in text.split_inclusive(|byte| *byte == b'\n') {
        let line = ended.strip_suffix(b"\n").unwrap_or(ended);
        match word(line) {
            CASE => {
                show::line(line);
                buffer = [170u8; 272];
            }
            FILE => {
                n = edit(line, &mut file);
            }
            AGAIN => {
                n = repeat(&mut file, n, number(line, 1), number(line, 2));
            }
            _ => call(line, &file, n, &mut buffer),
        }
    }
}

// Answers how long the file then is.
fn edit(line: &[u8], file: &mut [u8; ROOM]) -> usize {
    bytes(line, 2, file, number(line, 1) as usize)
}

// Answers how long the file then is.
fn repeat(file: &mut [u8; ROOM], n: usize, back: u64, many: u64) -> usize {
    let mut n = n;
    for _ in 0..many % 65536 {
        n = words::again(file, n, back as usize);
    }
    n
}

fn call(line: &[u8], file: &[u8; ROOM], n: usize, buffer: &mut [u8; 272]) {
    show::text(line);
    show::text_and_number(b" of", n as u64);
    if !made(line, front(file, n), buffer) {
        show::text(b" not understood");
    }
    show::line(b"");
}

// Makes the call, and answers whether it is known.
fn made(line: &[u8], file: &[u8], buffer: &mut [u8]) -> bool {
    let word = word(line);
    if asking::ask(word, line, file) || logs::lend(word, line, file) {
        return true;
    }
    lending::lend(word, line, file, buffer)
}
