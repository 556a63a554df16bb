// Calls that write nothing.
//
//     check
//     record AT           the record at a place, and its body
//     records             each record, found by the reader behind the one before it, up to the end record or a refusal
//     number STEPS SEED   the generator's number after so many steps
//     chart CREW F A      of the file's bytes F are the file, A behind them the listed actions, and the rest the pairs
use crate::show;
use crate::words::{front, number, rest};
use answer::Answer;
use records::Found;

// The words, as `words::word` reads them.
const CHECK: u64 = 0x636865636b;

const RECORD: u64 = 0x7265636f7264;

const RECORDS: u64 = 0x7265636f726473;

const NUMBER: u64 = 0x6e756d626572;

const CHART: u64 = 0x6368617274;

const END: u8 = 6;

// Makes the call of this word, if it is one of these, and answers whether it is.
pub(crate) fn ask(word: u64, line: &[u8], file: &[u8]) -> bool {
    match word {
        CHECK => show::answers(checker::check(file)),
        RECORD => record(file, number(line, 1) as usize),
        RECORDS => records(file),
        NUMBER => generator(number(line, 1), number(line, 2)),
        CHART => show::answers(chart(line, file)),
        _ => return false,
    }
    true
}

fn chart(line: &[u8], bytes: &[u8]) -> Answer {
    let len = number(line, 2) as usize;
    let listed = number(line, 3) as usize;
    let lists = rest(bytes, len);
    charter::chart(
        front(bytes, len),
        number(line, 1),
        front(lists, listed),
        rest(lists, listed),
    )
}

fn generator(steps: u64, seed: u64) {
    show::text_and_number(b" is", number_after(steps, seed) as u64);
}

fn number_after(steps: u64, seed: u64) -> u32 {
    let mut last = (seed % 4294967296) as u32;
    for _ in 0..steps {
        last = draw::next(last);
    }
    last
}

fn record(file: &[u8], at: usize) {
    found(records::record_at(file, at));
    show::text_and_bytes(b" body", records::body(file, at));
}

// The answer number, the kind, the body's start and the place after it; a refusal has its place twice.
fn found(found: Found) {
    match found {
        Found::There { kind, start, next } => numbers(0, kind, start, next),
        Found::Unknown { place } => numbers(2, 0, place, place),
        Found::Cut { kind: _, place } => numbers(1, 0, place, place),
        Found::Ended { place } => numbers(1, 0, place, place),
    }
}

fn numbers(number: u64, kind: u8, start: usize, next: usize) {
    show::text_and_number(b" is", number);
    show::number(kind as u64);
    show::number(start as u64);
    show::number(next as u64);
}

fn records(file: &[u8]) {
    let mut at = 0usize;
    let mut there = reader::record_from(file, 0);
    loop {
        found(there);
        let Found::There {
            kind,
            start: _,
            next,
        } = there
        else {
            return;
        };
        show::text_and_bytes(b" body", records::body(file, at));
        if kind == END {
            return;
        }
        there = reader::record_after(file, at);
        at = next;
    }
}
