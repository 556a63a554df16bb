// Sets of bits in words: one word, and 256 bits in four.
#![tactic(auto)]

ghost use Rattle.std.specs.Prelude.{◌≡◌, not, ◌&&◌, ◌||◌, ℕ, ◌<◌, eqb, length, unwrap_or};
ghost use Rattle.bits.specs.Bits.{bit, marked, within, LowestBit, LowestClear, Added, Removed, LeastMember};

// Whether bit k of x is set.
pub fn holds(x: u64, k: u8) -> bool
    requires { k < 64 }
    ensures { result ≡ bit x k }
{
    (x >> k) % 2 == 1
}

// x with bit k set: which number that is.
pub fn mark(x: u64, k: u8) -> u64
    requires { k < 64 }
    ensures { result ≡ marked x k }
{
    x | (1u64 << k)
}

// x with bit k set: which bits it has.
pub fn with_bit(x: u64, k: u8) -> u64
    requires { k < 64 }
    ensures { (j : ℕ) → bit result j ≡ (eqb k j || bit x j) }
{
    mark(x, k)
}

// x with bit k not set.
pub fn without_bit(x: u64, k: u8) -> u64
    requires { k < 64 }
    ensures { (j : ℕ) → bit result j ≡ (not (eqb k j) && bit x j) }
{
    let mark = 1u64 << k;
    (x | mark) ^ mark
}

// x with the bits of y set.
pub fn joined(x: u64, y: u64) -> u64
    ensures { (j : ℕ) → bit result j ≡ (bit y j || bit x j) }
{
    x | y
}

// The bits that x and y have in common.
pub fn common(x: u64, y: u64) -> u64
    ensures { (j : ℕ) → bit result j ≡ (bit x j && bit y j) }
{
    x & y
}

// The lowest bit of x that is set.
pub fn lowest(x: u64) -> u8
    requires { 0 < x }
    ensures { LowestBit 64 x result }
{
    u64::trailing_zeros(x) as u8
}

// The lowest bit of x that is not set, or 64: one more carries over all that are set below it.
pub fn lowest_clear(x: u64) -> u8
    ensures { LowestClear 64 x result }
{
    if x == 18446744073709551615 {
        return 64;
    }
    u64::trailing_zeros(x + 1) as u8
}

// Whether i is in the set.
pub fn contains(set: &[u64; 4], i: u8) -> bool
    ensures { result ≡ within set.now i }
{
    holds(set[(i / 64) as usize], i % 64)
}

// Puts i into the set.
pub fn add(set: &mut [u64; 4], i: u8)
    requires { length set.old ≡ 4 }
    ensures { Added i set.old set.new }
{
    let q = (i / 64) as usize;
    set[q] = with_bit(set[q], i % 64);
}

// Takes i out of the set.
pub fn remove(set: &mut [u64; 4], i: u8)
    requires { length set.old ≡ 4 }
    ensures { Removed i set.old set.new }
{
    let q = (i / 64) as usize;
    set[q] = without_bit(set[q], i % 64);
}

// The least number in the set.
pub fn least(set: &[u64; 4]) -> Option<u8>
    ensures { LeastMember set.now (unwrap_or result 256) }
{
    for (q, word) in set.iter().enumerate() {
        if *word != 0 {
            return Some(64 * (q as u8) + lowest(*word));
        }
    }
    None
}
