// Plans the study file on standard input for each of its crews with the crew's own seed, and prints the plans or refusals, one
// after the other with nothing between. A file that does not load is refused once.
#![tactic(auto)]

ghost use Rattle.std.specs.Prelude.{◌≡◌, ℕ, suc, ◌≤◌, ◌<◌, length, get_or, take};
ghost use Rattle.io.specs.Counts.{IsPrefixLen};
ghost use Rattle.study.specs.Study.{Study};
ghost use Rattle.study.specs.Reading.{reading, reading_for, says};
ghost use Rattle.lawful.specs.Lengths.{longest_file};
ghost use Rattle.telling.specs.Text.{shown_of, plan_text};
ghost use Rattle.turns.specs.Turns.{turns_in};
ghost use Rattle.plan.specs.Printed.{Printed};

const STDIN_FILENO: i32 = 0;

const STDOUT_FILENO: i32 = 1;

// One byte more than the longest file has, as `read` asks: of a longer one these bytes are planned, and refused.
const ROOM: usize = 26483;

fn main() {
    let mut file = [0u8; ROOM];
    let n = read(&mut file);
    print(&file[..n]);
}

// Fills the buffer from standard input, and answers how many bytes came.
fn read(file: &mut [u8]) -> usize
    requires { length file.old ≡ suc longest_file }
    ensures { IsPrefixLen result file.new }
{
    io::read_full(STDIN_FILENO, file)
}

fn print(file: &[u8]) {
    let many = turns::in_file(file);
    for crew in 0..many {
        print_for(file, crew);
    }
}

fn print_for(file: &[u8], crew: u64)
    requires { crew < turns_in (reading file.now) }
{
    let mut out = [0u8; 5129];
    let n = tell(file, crew, &mut out);
    io::write_all(STDOUT_FILENO, &out[..n]);
}

// Puts what the program prints of the file for a crew at the start of `out`, and answers how many bytes that is.
// 5,129 bytes hold the longest plan: a first line of 9, and 256 lines of 20 at most.
fn tell(file: &[u8], crew: u64, out: &mut [u8]) -> usize
    requires { 5129 ≤ length out.old }
    ensures prefix_len { IsPrefixLen result out.new }
    ensures printed { Printed (reading_for file.now crew) (take result out.new) }
{
    let mut plan = [0u8; 256];
    let answer = planner::plan_seeded(file, crew, &mut plan);
    if answer.number != 0 {
        return telling::refused(answer, out);
    }
    let n = answer.first as usize;
    tell_plan(file, crew, &plan[..n], out)
}

fn tell_plan(file: &[u8], crew: u64, plan: &[u8], out: &mut [u8]) -> usize
    requires { (length plan.now ≤ 256) × (5129 ≤ length out.old) }
    ensures prefix_len { IsPrefixLen result out.new }
    ensures out_after { (t : Study) → reading_for file.now crew ≡ says t
        → ((k : ℕ) → k < length plan.now → get_or plan.now k 0 < length t.actions)
        → take result out.new ≡ plan_text (shown_of t.actions) plan.now }
{
    let mut acts = [[0u8; 6]; 256];
    let mut vars = [[0u8; 3]; 32];
    let mut setters = [0u8; 512];
    // A file that does not load has no plan to tell.
    let _ = mustering::load_for(file, crew, &mut acts, &mut vars, &mut setters);
    telling::plan(plan, &acts, out)
}
