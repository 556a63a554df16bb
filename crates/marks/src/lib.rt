// The values of a variable as bits of a word: at most 16 of them. For each of 32 variables, a word.
#![tactic(auto)]

ghost use Rattle.std.specs.Prelude.{◌≡◌, not, ◌&&◌, ◌||◌, ℕ, ◌<◌, eqb, slice_index};
ghost use Rattle.bits.specs.Bits.{bit};

// Whether a value is among the marked ones.
pub fn has(word: u16, q: u8) -> bool
    requires { q < 16 }
    ensures { result ≡ bit word q }
{
    bits::holds(u64::from(word), q)
}

// The word with one value marked besides.
pub fn with(word: u16, q: u8) -> u16
    requires { q < 16 }
    ensures { (j : ℕ) → bit result j ≡ (eqb q j || bit word j) }
{
    word | (1u16 << q)
}

// Marks a value of a variable, and says whether it was not marked before.
pub fn insert(marks: &mut [u16; 32], v: usize, q: u8) -> bool
    requires { (v < 32) × (q < 16) }
    ensures new { result ≡ not (bit (slice_index marks.old v) q) }
    ensures besides { (w j : ℕ) → bit (slice_index marks.new w) j ≡ ((eqb v w && eqb q j) || bit (slice_index marks.old w) j) }
{
    let word = marks[v];
    marks[v] = with(word, q);
    !has(word, q)
}
