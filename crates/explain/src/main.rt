// Plans the study file on standard input for each of its crews with the crew's own seed, and prints the plans or refusals with
// their reasons, one after the other; where there is more than one crew, a line before each says which. A file that does not
// load is refused once.
#![tactic(auto)]

ghost use Rattle.std.specs.Prelude.{◌≡◌, ◌≢◌, List, ℕ, suc, ◌≤◌, ◌<◌, length, take, replicate};
ghost use Rattle.io.specs.Counts.{IsPrefixLen};
ghost use Rattle.study.specs.Study.{Study};
ghost use Rattle.study.specs.Reading.{reading, reading_for, says, refused};
ghost use Rattle.lawful.specs.Lengths.{longest_file};
ghost use Rattle.planning.specs.Seeded.{PlansSeeded};
ghost use Rattle.explained.specs.Facts.{Fact as Facts·Fact, rows_of};
ghost use Rattle.explained.specs.Explained.{Why, Explained};
ghost use Rattle.answer.specs.Answers.{three};
ghost use Rattle.turns.specs.Turns.{turns_in};

use answer::{Answer, Rule};
use facts::Fact;

const STDIN_FILENO: i32 = 0;

const STDOUT_FILENO: i32 = 1;

// One byte more than the longest file has, as `read` asks: of a longer one these bytes are planned, and refused.
const ROOM: usize = 26483;

fn main() {
    let mut file = [0u8; ROOM];
    let n = read(&mut file);
    print(&file[..n]);
}

// Fills the buffer from standard input, and answers how many bytes came.
fn read(file: &mut [u8]) -> usize
    requires { length file.old ≡ suc longest_file }
    ensures { IsPrefixLen result file.new }
{
    io::read_full(STDIN_FILENO, file)
}

fn print(file: &[u8]) {
    let many = turns::in_file(file);
    for crew in 0..many {
        if 1 < many {
            print_crew(crew);
        }
        print_for(file, crew);
    }
}

fn print_crew(crew: u64) {
    let mut line = [0u8; 26];
    let n = telling::crew(crew, &mut line);
    io::write_all(STDOUT_FILENO, &line[..n]);
}

fn print_for(file: &[u8], crew: u64)
    requires { crew < turns_in (reading file.now) }
{
    let mut plan = [0u8; 256];
    let answer = planner::plan_seeded(file, crew, &mut plan);
    if answer.number != 0 {
        print_refusal(file, crew, answer);
        return;
    }
    let n = answer.first as usize;
    recounting::print_plan(file, crew, &plan[..n]);
}

fn print_refusal(file: &[u8], crew: u64, answer: Answer)
    requires { (answer.number ≢ 0) × ((buffer : List ℕ) × PlansSeeded (reading_for file.now crew) (replicate 256 0) answer buffer) }
{
    let mut out = [0u8; 8423];
    let n = tell_refusal(file, crew, answer, &mut out);
    io::write_all(STDOUT_FILENO, &out[..n]);
}

// Puts what the program prints of a refusal at the start of `out`, and answers how many bytes that is.
// 8,423 bytes hold the longest: a line of 71, and 288 facts of 29 at most.
fn tell_refusal(file: &[u8], crew: u64, answer: Answer, out: &mut [u8]) -> usize
    requires { (8423 ≤ length out.old) × (answer.number ≢ 0)
        × ((buffer : List ℕ) × PlansSeeded (reading_for file.now crew) (replicate 256 0) answer buffer) }
    ensures prefix_len { IsPrefixLen result out.new }
    ensures explained { Explained (reading_for file.now crew) (take result out.new) }
{
    let mut facts = [facts::NONE; 288];
    let n = why(
        file,
        crew,
        answer.number,
        answer.first as usize,
        answer.second as usize,
        &mut facts,
    );
    let begin = telling::refused(answer, out);
    wording::lines(&facts[..n], out, begin)
}

// The facts that explain a refusal of the file for a crew, or none where it does not load.
fn why(
    file: &[u8],
    crew: u64,
    number: u64,
    first: usize,
    second: usize,
    facts: &mut [Fact; 288],
) -> usize
    requires { (length facts.old ≡ 288) × (number ≢ 0)
        × ((buffer : List ℕ) × PlansSeeded (reading_for file.now crew) (replicate 256 0) (three number first second) buffer) }
    ensures upper_bound { (result ≤ 288) × (length facts.new ≡ 288) }
    ensures why { (t : Study)
        → reading_for file.now crew ≡ says t
        → (list : List Facts·Fact) × (Why t (three number first second) list × (take result facts.new ≡ rows_of list)) }
    ensures by_index { (n place : ℕ) → reading_for file.now crew ≡ refused n place → result ≡ 0 }
{
    let mut acts = [[0u8; 6]; 256];
    let mut vars = [[0u8; 3]; 32];
    let mut setters = [0u8; 512];
    let Ok(loaded) = mustering::load_for(file, crew, &mut acts, &mut vars, &mut setters) else {
        return 0;
    };
    if number == Rule::NoWalk as u64 {
        return explaining::why_broken(first, loaded.actions, &acts, &vars, &setters, facts);
    }
    if number == Rule::OffWalk as u64 {
        return explaining::why_off(
            file,
            first,
            second,
            loaded.vars,
            loaded.actions,
            &acts,
            &vars,
            &setters,
            facts,
        );
    }
    explaining::why_ringed(
        file,
        loaded.vars,
        loaded.actions,
        &acts,
        &vars,
        &setters,
        facts,
    )
}
