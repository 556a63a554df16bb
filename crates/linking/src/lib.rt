// Numbers below 256 that are linked, a row of 256 bits for each: all that a chain of links leads to, in place.
#![tactic(auto)]

ghost use Rattle.std.specs.Prelude.{◌≡◌, true, false, not, ◌&&◌, ℕ, ◌<◌, length, unwrap_or, OnOk, OnErr};
ghost use Rattle.bits.specs.Bits.{bit, within};
ghost use Rattle.linking.specs.Linking.{Rows, Linked, Shaped, Closes};
ghost use Rattle.linking.specs.Passing.{LeastOutside, Joined, Joins, OfWord, Gathers, Partly, Finishes, Ring};

// Some chain of links leads back to where it began.
#[derive(Clone, Copy, Debug, PartialEq, Eq)]
pub struct Circle;

// The bits of x that y has not.
pub fn without(x: u64, y: u64) -> u64
    ensures { (j : ℕ) → bit result j ≡ (not (bit y j) && bit x j) }
{
    (x | y) ^ y
}

// The least number in the set that is not in the other.
fn least_outside(set: &[u64; 4], other: &[u64; 4]) -> Option<u8>
    ensures { LeastOutside set.now other.now (unwrap_or result 256) }
{
    for (q, x) in set.iter().enumerate() {
        let word = without(*x, other[q]);
        if word != 0 {
            return Some(64 * (q as u8) + bits::lowest(word));
        }
    }
    None
}

// Puts the members of the other set into the set.
fn join(set: &mut [u64; 4], other: &[u64; 4])
    requires { (length set.old ≡ 4) × (length other.now ≡ 4) }
    ensures { Joined other.now set.old set.new }
{
    for (q, x) in set.iter_mut().enumerate() {
        *x = bits::joined(*x, other[q]);
    }
}

// Puts the rows of the numbers of word q into the set.
fn gather_word(q: usize, word: u64, rows: &[[u64; 4]; 256], all: &mut [u64; 4])
    requires { (q < 4) × Shaped rows.now × (length all.old ≡ 4) }
    ensures { Joins (OfWord q word) rows.now all.old all.new }
{
    let mut rest = word;
    while rest != 0 {
        let k = bits::lowest(rest);
        rest = bits::without_bit(rest, k);
        join(all, &rows[64 * q + (k as usize)]);
    }
}

// Puts into the row of x the rows of all that are in it.
fn gather(x: usize, rows: &mut [[u64; 4]; 256])
    requires { (x < 256) × Shaped rows.old }
    ensures { Gathers x rows.old rows.new }
{
    let row = rows[x];
    let mut all = row;
    for (q, word) in row.iter().enumerate() {
        gather_word(q, *word, rows, &mut all);
    }
    rows[x] = all;
}

// Finishes the root and all that a chain of links leads to from it, depth first, unless it comes to a circle. The path grows and shrinks,
// so this is no `for`.
fn finish(
    root: u8,
    rows: &mut [[u64; 4]; 256],
    done: &mut [u64; 4],
    path: &mut [u8; 256],
) -> Result<(), Circle>
    requires { Shaped rows.old × (length done.old ≡ 4) × (length path.old ≡ 256) × (within done.old root ≡ false) }
    ensures shaped { Shaped rows.new × (length done.new ≡ 4) × (length path.new ≡ 256) }
    ensures finishes { OnOk result (Finishes root done.old done.new) }
    ensures partly { OnOk result ((before : Rows) → Partly before rows.old done.old → Partly before rows.new done.new) }
    ensures ring { OnErr result ((before : Rows) → Partly before rows.old done.old → Ring before) }
{
    let mut begun = *done;
    bits::add(&mut begun, root);
    path[0] = root;
    let mut depth: usize = 1;
    while 0 < depth {
        let x = path[depth - 1];
        let at = x as usize;
        match least_outside(&rows[at], done) {
            Some(next) => {
                if bits::contains(&begun, next) {
                    return Err(Circle);
                }
                bits::add(&mut begun, next);
                path[depth] = next;
                depth += 1;
            }
            None => {
                gather(at, rows);
                bits::add(done, x);
                depth -= 1;
            }
        }
    }
    Ok(())
}

// Gives each row all that a chain of links leads to, from a set that has all that a link leaves.
pub fn close(members: &[u64; 4], rows: &mut [[u64; 4]; 256]) -> Result<(), Circle>
    requires { Shaped rows.old × ((x y : ℕ) → Linked rows.old x y → within members.now x ≡ true) }
    ensures shaped { Shaped rows.new }
    ensures closes { Closes rows.old rows.new result }
{
    let mut done = [0u64; 4];
    let mut path = [0u8; 256];
    while let Some(root) = least_outside(members, &done) {
        finish(root, rows, &mut done, &mut path)?;
    }
    Ok(())
}
