// A chart of at most 64 actions, whose sets are words: its pairs as ties, and the lowest order that they lack.
#![tactic(auto)]

mod words;

ghost use Rattle.std.specs.Prelude.{◌≡◌, List, ℕ, ◌<◌, length, IfSome, unwrap_or};
ghost use Rattle.tying.specs.Tying.{Low, Tied};
ghost use Rattle.charts.specs.Charts.{pairs_of};
ghost use Rattle.listing.specs.Listing.{LinksTo};
ghost use Rattle.lacking.specs.Lacking.{LacksOf};
ghost use Rattle.comparing.specs.Comparing.{ListedIn, Untied, Wanted, Lacking, LacksAny, LowestSecond};

pub use words::Word;

// The index of the first pair that names an action that is not a member, or an action and itself; if there is none, each first is
// tied before its second. A last byte that stands alone is such a pair.
pub fn tie_all(pairs: &[u8], members: u64, ties: &mut [u64; 64]) -> Option<usize>
    requires { (length ties.old ≡ 64) × Low members × Untied ties.old }
    ensures ties_len { length ties.new ≡ 64 }
    ensures there { IfSome result (λ k. k < length (pairs_of pairs.now)) }
    ensures by_index { (list : List ℕ)
        → ListedIn list members
        → LinksTo list (pairs_of pairs.now) (Tied ties.new) (unwrap_or result (length (pairs_of pairs.now))) }
{
    let whole = pairs.len() / 2;
    for k in 0..whole {
        let x = pairs[2 * k];
        let y = pairs[2 * k + 1];
        if listing::stray(x, y, &Word(members)) {
            return Some(k);
        }
        let j = y as usize;
        ties[j] = bits::with_bit(ties[j], x);
    }
    if pairs.len() % 2 == 1 {
        return Some(whole);
    }
    None
}

// What is wanted before some member and is not tied before it.
fn lacking_any(members: u64, words: &[u64; 64], ties: &[u64; 64]) -> u64
    ensures { LacksAny members words.now ties.now result }
{
    let mut any = 0;
    let mut rest = members;
    while rest != 0 {
        let y = bits::lowest(rest);
        rest = bits::without_bit(rest, y);
        let j = y as usize;
        any = bits::joined(any, linking::without(words[j], ties[j]));
    }
    any
}

// The lowest member before which x is wanted and not tied.
fn lowest_second(x: u8, members: u64, words: &[u64; 64], ties: &[u64; 64]) -> u8
    requires { (x < 64) × ((y : ℕ) × Lacking members words.now ties.now x y) }
    ensures { LowestSecond members words.now ties.now x result }
{
    let mut rest = members;
    while rest != 0 {
        let y = bits::lowest(rest);
        let j = y as usize;
        if bits::holds(linking::without(words[j], ties[j]), x) {
            return y;
        }
        rest = bits::without_bit(rest, y);
    }
    0
}

// The words have what is wanted before each member: all that are members are tied so; or the lowest two that are not.
pub fn lowest(members: u64, words: &[u64; 64], ties: &[u64; 64]) -> Option<(u8, u8)>
    requires { Low members }
    ensures { LacksOf (Wanted members words.now) (Tied ties.now) result }
{
    let any = bits::common(lacking_any(members, words, ties), members);
    if any == 0 {
        return None;
    }
    let first = bits::lowest(any);
    let second = lowest_second(first, members, words, ties);
    Some((first, second))
}
