// The seeded draw of a rank list.
#![tactic(auto)]

ghost use Rattle.std.specs.Prelude.{◌≡◌, ◌++◌, ◌-◌, ◌<◌, ◌≤◌, length, drop};
ghost use Rattle.ranks.specs.Ranks.{rising, exchanged};
ghost use Rattle.draw.specs.Draw.{number_after, shuffled, DrawAllows};
ghost use Rattle.draw.specs.Draw.{next as Draw·next};

use answer::{Answer, Rule};

const LARGEST_SEED: u64 = 2147483646;

const MOST_ACTIONS: u64 = 256;

// The generator's number after `last`.
pub fn next(last: u32) -> u32
    ensures { result ≡ Draw·next last }
{
    let product = 16807 * u64::from(last);
    let sum = (product % 2147483648 + product / 2147483648) as u32;
    if sum < 2147483647 {
        sum
    } else {
        sum - 2147483647
    }
}

// Writes 0, 1, .. into the first `count` entries.
fn fill_rising(ranks: &mut [u8], count: usize)
    requires { (count ≤ 256) × (count ≤ length ranks.old) }
    ensures { ranks.new ≡ rising count ++ drop count ranks.old }
{
    for (i, rank) in ranks[..count].iter_mut().enumerate() {
        *rank = i as u8;
    }
}

// Exchanges two entries by three moves: the slice's `swap` first tests which of the two comes first, and drawing took half as long again.
fn exchange(ranks: &mut [u8], i: usize, j: usize)
    requires { (i < length ranks.old) × (j < length ranks.old) }
    ensures { ranks.new ≡ exchanged ranks.old i j }
{
    let at_i = ranks[i];
    ranks[i] = ranks[j];
    ranks[j] = at_i;
}

// Shuffles the first `count` entries and returns the generator's last number.
fn shuffle(ranks: &mut [u8], count: usize, seed: u32) -> u32
    requires { (count ≤ 256) × (count ≤ length ranks.old) }
    ensures { (result ≡ number_after (count - 1) seed)
        × (ranks.new ≡ shuffled (count - 1) seed ranks.old) }
{
    let mut last = seed;
    for i in (1..count).rev() {
        last = next(last);
        let partner = last % (i as u32 + 1);
        exchange(ranks, i, partner as usize);
    }
    last
}

// Draws a rank list for `count` actions into the first bytes of `ranks`.
pub fn draw(seed: u64, count: u64, ranks: &mut [u8]) -> Answer
    ensures { DrawAllows seed count ranks.old result ranks.new }
{
    if seed < 1 {
        return Rule::NoSeed.refusal(seed);
    }
    if LARGEST_SEED < seed {
        return Rule::NoSeed.refusal(seed);
    }
    if MOST_ACTIONS < count {
        return Rule::WrongCount.refusal(count);
    }
    let entries = count as usize;
    if ranks.len() < entries {
        return Rule::NoRoom.refusal(count);
    }
    fill_rising(ranks, entries);
    let last = shuffle(ranks, entries, seed as u32);
    Answer::done(u64::from(last), 0)
}
