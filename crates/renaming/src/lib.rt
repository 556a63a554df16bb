// What comes directly before each walk action of at most 64, found once by action, and put under the ranks of a list.
#![tactic(auto)]

ghost use Rattle.std.specs.Prelude.{◌≡◌, ℕ, ◌≤◌, ◌<◌, length, get_or};
ghost use Rattle.ranks.specs.Ranks.{Apart};
ghost use Rattle.study.specs.Study.{Study};
ghost use Rattle.marking.specs.Marking.{Ranked};
ghost use Rattle.ordering.specs.Ordering.{OrderableIn};
ghost use Rattle.renaming.specs.Renaming.{Below, Renamed, Reworded, OrdersByAction};

use wanting::Off;

// Numbers each action by itself.
fn number_all(ranks: &mut [u8; 64])
    requires { length ranks.old ≡ 64 }
    ensures { (length ranks.new ≡ 64) × ((i : ℕ) → i < 64 → get_or ranks.new i 0 ≡ i) }
{
    for (i, rank) in ranks.iter_mut().enumerate() {
        *rank = i as u8;
    }
}

// Orders the actions as if each had its own number for its rank, into cleared words.
pub fn order_by_action(
    file: &[u8],
    actions: usize,
    acts: &[[u8; 6]; 256],
    vars: &[[u8; 3]; 32],
    setters: &[u8; 512],
    steps: &[u16; 512],
    words: &mut [u64; 64],
) -> Result<u64, Off>
    requires { (length words.old ≡ 64) × (actions ≤ 64)
        × ((t : Study) × OrderableIn file.now actions acts.now vars.now setters.now steps.now t) }
    ensures words_len { length words.new ≡ 64 }
    ensures orders_by_action { (t : Study)
        → OrderableIn file.now actions acts.now vars.now setters.now steps.now t
        → ((j : ℕ) → get_or words.old j 0 ≡ 0)
        → OrdersByAction t words.new result }
{
    let mut own = [0u8; 64];
    number_all(&mut own);
    ordering::order_all(
        file,
        &own[..actions],
        actions,
        acts,
        vars,
        setters,
        steps,
        words,
    )
}

// The word with the rank of each action that is in it.
fn renamed(word: u64, ranks: &[u8]) -> u64
    requires { Below (length ranks.now) word × Ranked ranks.now }
    ensures { Renamed ranks.now word result }
{
    let mut rest = word;
    let mut under = 0u64;
    while rest != 0 {
        let i = bits::lowest(rest);
        rest = bits::without_bit(rest, i);
        under = bits::with_bit(under, ranks[i as usize]);
    }
    under
}

// Enters what comes before each member, of the members, under its rank. Answers the members' ranks.
pub fn rename_all(members: u64, words: &[u64; 64], ranks: &[u8], under: &mut [u64; 64]) -> u64
    requires { (length under.old ≡ 64) × Below (length ranks.now) members × Ranked ranks.now × Apart ranks.now }
    ensures under_len { (length under.new ≡ 64) × Renamed ranks.now members result }
    ensures by_index { ((j : ℕ) → get_or under.old j 0 ≡ 0)
        → Reworded members words.now ranks.now under.new }
{
    let mut rest = members;
    while rest != 0 {
        let i = bits::lowest(rest);
        rest = bits::without_bit(rest, i);
        let at = i as usize;
        let before = bits::common(words[at], members);
        let rank = tables::wide(ranks[at]);
        under[rank] = renamed(before, ranks);
    }
    renamed(members, ranks)
}
