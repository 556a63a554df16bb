// Calls that are lent the front of the buffer. The first argument is how many bytes.
//
//     plan ROOM CREW RANKS
//     seeded ROOM CREW       plan with the crew's seed
//     run ROOM CREW LIST
//     draw ROOM SEED COUNT
//     write ROOM SITUATION V A C K T   a file from lists, which are the file's bytes: V of variables, then A of actions,
//                                      C of conditions, K of crews, T of tasks
//     report ROOM CREW FIRST COUNT   on so many seeds from a first one on
//     journeys ROOM CREW START F R   of the file's bytes F are the file, R behind them the ranks, and the rest the rides
ghost use Rattle.std.specs.Prelude.{◌≤◌, length};

use crate::show;
use crate::words::{bytes, front, number, rest};
use answer::Answer;

// The words, as `words::word` reads them.
const PLAN: u64 = 0x706c616e;

const SEEDED: u64 = 0x736565646564;

const RUN: u64 = 0x72756e;

const DRAW: u64 = 0x64726177;

const WRITE: u64 = 0x7772697465;

const REPORT: u64 = 0x7265706f7274;

const JOURNEYS: u64 = 0x6a6f75726e657973;

// Makes the call of this word, if it is one of these, and answers whether it is.
pub(crate) fn lend(word: u64, line: &[u8], file: &[u8], buffer: &mut [u8]) -> bool {
    let mut list = [0u8; 320];
    let n = bytes(line, 3, &mut list, 0);
    let room = number(line, 1).min(264).min(buffer.len() as u64) as usize;
    lend_first(word, line, file, front(&list, n), buffer, room)
}

// What the call leaves is printed with the 8 bytes behind.
fn lend_first(
    word: u64,
    line: &[u8],
    file: &[u8],
    list: &[u8],
    buffer: &mut [u8],
    room: usize,
) -> bool
    requires { (room ≤ 264) × (room ≤ length buffer.old) }
{
    if !call(word, line, file, list, &mut buffer[0..room]) {
        return false;
    }
    show::text_and_bytes(b" leaves", front(buffer, room + 8));
    true
}

fn call(word: u64, line: &[u8], file: &[u8], list: &[u8], room: &mut [u8]) -> bool {
    match word {
        PLAN => show::answers(planner::plan(file, number(line, 2), list, room)),
        SEEDED => show::answers(planner::plan_seeded(file, number(line, 2), room)),
        RUN => show::answers(running::run(file, number(line, 2), list, room)),
        DRAW => show::answers(draw::draw(number(line, 2), number(line, 3), room)),
        WRITE => show::answers(write(line, file, room)),
        REPORT => show::answers(report(line, file, room)),
        JOURNEYS => show::answers(journeys(line, file, room)),
        _ => return false,
    }
    true
}

fn report(line: &[u8], file: &[u8], room: &mut [u8]) -> Answer {
    reporter::report(
        file,
        number(line, 2),
        number(line, 3),
        number(line, 4),
        room,
    )
}

fn journeys(line: &[u8], bytes: &[u8], room: &mut [u8]) -> Answer {
    let len = number(line, 4) as usize;
    let ranked = number(line, 5) as usize;
    let lists = rest(bytes, len);
    dispatcher::journeys(
        front(bytes, len),
        number(line, 2),
        front(lists, ranked),
        rest(lists, ranked),
        number(line, 3),
        room,
    )
}

fn write(line: &[u8], file: &[u8], room: &mut [u8]) -> Answer {
    let actions = rest(file, number(line, 3) as usize);
    let conditions = rest(actions, number(line, 4) as usize);
    let crews = rest(conditions, number(line, 5) as usize);
    let tasks = rest(crews, number(line, 6) as usize);
    writer::write(
        (number(line, 2) % 256) as u8,
        front(file, number(line, 3) as usize),
        front(actions, number(line, 4) as usize),
        front(conditions, number(line, 5) as usize),
        front(crews, number(line, 6) as usize),
        front(tasks, number(line, 7) as usize),
        room,
    )
}
