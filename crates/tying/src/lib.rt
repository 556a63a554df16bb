// Numbers below 64 that are tied, each with a word of those tied before it: all that chains of ties put before it, in place.
#![tactic(auto)]

ghost use Rattle.std.specs.Prelude.{◌≡◌, ◌↔◌, ℕ, ◌≤◌, length};
ghost use Rattle.orders.specs.Orders.{Counted, Chain};
ghost use Rattle.linking.specs.Linking.{Anyone, ClosesTo};
ghost use Rattle.hanging.specs.Hanging.{InWord};
ghost use Rattle.tying.specs.Tying.{InPlace, Tied, Low, Among, Sorts, Gathered};

use linking::Circle;

// So many numbers a word has.
const FEW: usize = 64;

// Puts each number of a word in its own place.
pub fn number_all(room: &mut [u8])
    requires { 64 ≤ length room.old }
    ensures { (length room.new ≡ length room.old) × InPlace room.new }
{
    for (i, place) in room[..FEW].iter_mut().enumerate() {
        *place = i as u8;
    }
}

// The word, and what is tied before those that are in it.
fn gathered(word: u64, words: &[u64; 64]) -> u64
    ensures { Gathered word words.now result }
{
    let mut all = word;
    let mut rest = word;
    while rest != 0 {
        let x = bits::lowest(rest);
        rest = bits::without_bit(rest, x);
        all = bits::joined(all, words[x as usize]);
    }
    all
}

// Gathers for one number after another, in an order in which what is tied before another comes first.
fn gather_all(total: usize, room: &[u8; 512], words: &mut [u64; 64])
    requires { (total ≤ 256) × (length room.now ≡ 512) × (length words.old ≡ 64) × Sorts room.now total words.old }
    ensures { (x y : ℕ) → Tied words.new x y ↔ Chain Anyone (Tied words.old) x y }
{
    for k in 0..total {
        let y = room[256 + k] as usize;
        words[y] = gathered(words[y], words);
    }
}

// Numbers that are tied, all of them members. The room is used up.
pub fn close(
    members: u64,
    total: usize,
    words: &mut [u64; 64],
    room: &mut [u8; 512],
) -> Result<(), Circle>
    requires { (total ≤ 256) × (length words.old ≡ 64) × Counted (InWord members) total
        × Among members words.old × Low members × (length room.old ≡ 512) }
    ensures { ClosesTo (Tied words.old) (Tied words.new) result }
{
    number_all(room);
    let taken = hanging::take_looking(members, total, words, room);
    if taken < total {
        return Err(Circle);
    }
    gather_all(total, room, words);
    Ok(())
}
