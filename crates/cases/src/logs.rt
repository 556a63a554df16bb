// The call that is lent an occupant's record, of forty bytes 170.
//
//     replay CREW F       of the file's bytes F are the file, and the rest the log
use crate::show;
use crate::words::{front, number, rest};

// The word, as `words::word` reads it.
const REPLAY: u64 = 0x7265706c6179;

// Makes the call, if the word is this, and answers whether it is.
pub(crate) fn lend(word: u64, line: &[u8], bytes: &[u8]) -> bool {
    if word != REPLAY {
        return false;
    }
    let len = number(line, 2) as usize;
    let mut occupant = [170u8; 40];
    show::answers(replaying::replay(
        front(bytes, len),
        number(line, 1),
        rest(bytes, len),
        &mut occupant,
    ));
    show::text_and_bytes(b" leaves", &occupant);
    true
}
