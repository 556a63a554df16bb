// The lines of facts: a word or two, and the numbers that the fact names.
#![tactic(auto)]

ghost use Rattle.std.specs.Prelude.{◌≡◌, List, ◌++◌, ◌+◌, ◌*◌, ◌≤◌, length, map};
ghost use Rattle.telling.specs.Text.{Appends, line_end};
ghost use Rattle.explained.specs.Facts.{Fact, bytes_of, byte_rows, kind_of, word_of, numbers_of, all_spaced, fact_line, fact_lines};

use facts::Row;

// The words of a kind of fact.
fn words(kind: u8) -> &'static [u8]
    ensures upper_bound { length result.now ≤ 12 }
    ensures value { (f : Fact) → kind_of f ≡ kind → result.now ≡ word_of f }
{
    match kind {
        0 => b"goal",
        1 => b"set",
        2 => b"unset",
        3 => b"round",
        4 => b"wants",
        5 => b"start",
        6 => b"walk",
        7 => b"ring next",
        8 => b"ring sets",
        9 => b"ring leaves",
        10 => b"after next",
        11 => b"after sets",
        _ => b"after leaves",
    }
}

// How many numbers a fact of this kind names.
fn many(kind: u8) -> usize
    ensures upper_bound { result ≤ 4 }
    ensures value { (f : Fact) → kind_of f ≡ kind → result ≡ length (numbers_of f) }
{
    match kind {
        0 | 2 | 3 | 5 => 2,
        4 => 3,
        _ => 4,
    }
}

// Words, numbers of three digits at most with a space before each, and the line's end.
fn tell(out: &mut [u8], at: usize, words: &[u8], numbers: &[u8]) -> usize
    requires { at + length words.now + 4 * length numbers.now + 1 ≤ length out.old }
    ensures upper_bound { (result ≤ at + length words.now + 4 * length numbers.now + 1) × (length out.new ≡ length out.old) }
    ensures appends { Appends out.old at (words.now ++ (all_spaced numbers.now ++ line_end)) out.new result }
{
    let mut next = telling::text::put(out, at, words);
    for number in numbers {
        next = telling::short(out, next, usize::from(*number));
    }
    telling::text::put(out, next, b"\n")
}

// One line, 29 bytes at most: the words, four numbers of three digits with a space before each, and the line's end.
fn line(row: [u8; 5], out: &mut [u8], at: usize) -> usize
    requires { at + 29 ≤ length out.old }
    ensures upper_bound { (result ≤ at + 29) × (length out.new ≡ length out.old) }
    ensures appends { (f : Fact) → row ≡ bytes_of f → Appends out.old at (fact_line f) out.new result }
{
    let kind = row[0];
    let n = many(kind);
    tell(out, at, words(kind), &row[1..1 + n])
}

// The lines of facts, or of their rows, from a place on.
pub fn lines<F: Row>(facts: &[F], out: &mut [u8], begin: usize) -> usize
    requires { begin + 29 * length facts.now ≤ length out.old }
    ensures upper_bound { (result ≤ begin + 29 * length facts.now) × (length out.new ≡ length out.old) }
    ensures appends { (list : List Fact) → map F.bytes facts.now ≡ byte_rows list → Appends out.old begin (fact_lines list) out.new result }
{
    let mut at = begin;
    for fact in facts {
        at = line(fact.row(), out, at);
    }
    at
}
