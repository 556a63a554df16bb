// Tests a rank list, and turns one round.
#![tactic(auto)]

ghost use Rattle.std.specs.Prelude.{◌≡◌, ◌≤◌, length};
ghost use Rattle.ranks.specs.Ranks.{Apart, Turned};
ghost use Rattle.ranking.specs.Ranking.{tested};

// Why a list is no rank list: its length is wrong, or an entry is the first that is too large or repeats an earlier one.
#[derive(Clone, Copy, Debug, PartialEq, Eq)]
pub enum Unranked {
    Length,
    Entry(usize),
}

pub fn test(ranks: &[u8], actions: usize) -> Result<(), Unranked>
    ensures { result ≡ tested ranks.now actions }
{
    if ranks.len() != actions {
        return Err(Unranked::Length);
    }
    let mut met = [0u64; 4];
    for (k, &entry) in ranks.iter().enumerate() {
        if actions <= usize::from(entry) {
            return Err(Unranked::Entry(k));
        }
        let repeats = bits::contains(&met, entry);
        // before the branch: two instructions less for each entry than after it
        bits::add(&mut met, entry);
        if repeats {
            return Err(Unranked::Entry(k));
        }
    }
    Ok(())
}

// Enters each action under its rank.
pub fn name_all(ranks: &[u8], names: &mut [u8; 512])
    requires { (length ranks.now ≤ 256) × (length names.old ≡ 512) }
    ensures names_len { length names.new ≡ 512 }
    ensures turned { Apart ranks.now → Turned ranks.now names.new }
{
    for (i, &rank) in ranks.iter().enumerate() {
        names[usize::from(rank)] = i as u8;
    }
}
