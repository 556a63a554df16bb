// What the program prints of an answer: a refusal's line, or the lines of a plan.
#![tactic(auto)]

pub mod text;

ghost use Rattle.std.specs.Prelude.{◌≡◌, ◌+◌, ◌≤◌, ◌<◌, length, take};
ghost use Rattle.tables.specs.Rows.{var_column, pre_column, post_column};
ghost use Rattle.telling.specs.Text.{Appends, decimal, spaced, first_line, crew_line, step_line, shown_in, plan_text, refused_line};

use answer::Answer;

const STDOUT_FILENO: i32 = 1;

pub fn print_refusal(answer: Answer) {
    let mut line = [0u8; 71];
    let n = refused(answer, &mut line);
    io::write_all(STDOUT_FILENO, &line[..n]);
}

// The one line of a refusal: 71 bytes at most.
pub fn refused(answer: Answer, out: &mut [u8]) -> usize
    requires { 71 ≤ length out.old }
    ensures { (result ≤ 71) × (take result out.new ≡ refused_line answer.number answer.first answer.second) }
{
    let a = text::put(out, 0, b"refused");
    let b = long(out, a, answer.number);
    let c = long(out, b, answer.first);
    let d = long(out, c, answer.second);
    text::put(out, d, b"\n")
}

// The lines of a plan, whose actions' variables and values the tables hold.
pub fn plan(list: &[u8], acts: &[[u8; 6]; 256], out: &mut [u8]) -> usize
    requires { (length list.now ≤ 256) × (5129 ≤ length out.old) }
    ensures { (result ≤ 5129)
        × (take result out.new ≡ plan_text (shown_in (var_column acts.now) (pre_column acts.now) (post_column acts.now)) list.now) }
{
    let mut at = first(list.len(), out);
    for (k, action) in list.iter().enumerate() {
        let action = usize::from(*action);
        let a = tables::action_at(acts, action);
        at = step(out, at, k, action, a.var, a.pre, a.post);
    }
    at
}

// The first line: 9 bytes at most.
pub fn first(len: usize, out: &mut [u8]) -> usize
    requires { (len < 1000) × (9 ≤ length out.old) }
    ensures { (result ≤ 9) × (take result out.new ≡ first_line len) }
{
    let a = text::put(out, 0, b"plan");
    let b = short(out, a, len);
    text::put(out, b, b"\n")
}

// The line before what is told of a crew: 26 bytes at most.
pub fn crew(c: u64, out: &mut [u8]) -> usize
    requires { 26 ≤ length out.old }
    ensures { (result ≤ 26) × (take result out.new ≡ crew_line c) }
{
    let a = text::put(out, 0, b"crew");
    let b = long(out, a, c);
    text::put(out, b, b"\n")
}

// A step's line: 20 bytes at most.
pub fn step(out: &mut [u8], at: usize, k: usize, action: usize, var: u8, pre: u8, post: u8) -> usize
    requires { (k < 1000) × (action < 1000) × (at + 20 ≤ length out.old) }
    ensures { (result ≤ at + 20) × Appends out.old at (step_line k action var pre post) out.new result }
{
    let a = brief(out, at, k);
    let b = short(out, a, action);
    let c = short(out, b, var as usize);
    let d = short(out, c, pre as usize);
    let e = short(out, d, post as usize);
    text::put(out, e, b"\n")
}

// Three digits at most.
fn brief(out: &mut [u8], at: usize, n: usize) -> usize
    requires { (n < 1000) × (at + 3 ≤ length out.old) }
    ensures { (result ≤ at + 3) × Appends out.old at (decimal n) out.new result }
{
    text::number(out, at, n as u64)
}

// A space and three digits at most.
pub fn short(out: &mut [u8], at: usize, n: usize) -> usize
    requires { (n < 1000) × (at + 4 ≤ length out.old) }
    ensures { (result ≤ at + 4) × Appends out.old at (spaced n) out.new result }
{
    text::spaced(out, at, n as u64)
}

// A space and any number.
fn long(out: &mut [u8], at: usize, n: u64) -> usize
    requires { at + 21 ≤ length out.old }
    ensures { (result ≤ at + 21) × Appends out.old at (spaced n) out.new result }
{
    text::spaced(out, at, n)
}
