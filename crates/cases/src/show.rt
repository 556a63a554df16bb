// Words, numbers, bytes and answers on standard output.
use answer::Answer;

const STDOUT_FILENO: i32 = 1;

pub(crate) fn text(words: &[u8]) {
    io::write_all(STDOUT_FILENO, words);
}

pub(crate) fn line(words: &[u8]) {
    text(words);
    text(b"\n");
}

pub(crate) fn number(n: u64) {
    text(b" ");
    io::print_decimal(STDOUT_FILENO, n);
}

pub(crate) fn text_and_number(words: &[u8], n: u64) {
    text(words);
    number(n);
}

// Words, a space, and each byte in hexadecimal.
pub(crate) fn text_and_bytes(words: &[u8], all: &[u8]) {
    text(words);
    text(b" ");
    for byte in all {
        io::print_hex(STDOUT_FILENO, u64::from(*byte), 2);
    }
}

pub(crate) fn answers(answer: Answer) {
    text_and_number(b" answers", answer.number);
    number(answer.first);
    number(answer.second);
}
