// What checking a chart asks of a set of actions, and sets of 256 bits.

ghost use Rattle.std.specs.Prelude.{◌≡◌, ◌||◌, Bool, false, ℕ, ◌<◌, eqb, unwrap_or};
ghost use Rattle.bits.specs.Bits.{within};
ghost use Rattle.listing.specs.Listing.{DifferingBy, Least};

pub trait ActionSet: Copy {
    // Whether a number is in the set.
    ghost has: { Self → ℕ → Bool };

    // What is in the set is below this.
    ghost room: { ℕ };

    fn empty() -> Self
        ensures { (i : ℕ) → has result i ≡ false };

    fn contains(&self, i: u8) -> bool
        ensures { result ≡ has self.now i };

    fn add(&mut self, i: u8)
        requires { i < room }
        ensures { (j : ℕ) → has self.new j ≡ (eqb i j || has self.old j) };

    // Puts in what is in just one of two sets.
    fn add_unlike(&mut self, one: &Self, other: &Self)
        ensures { DifferingBy (has one.now) (has other.now) (has self.old) (has self.new) };

    fn least(&self) -> Option<u8>
        ensures { Least (has self.now) (unwrap_or result 256) };
}

impl ActionSet for [u64; 4] {
    ghost has = { within };

    ghost room = { 256 };

    fn empty() -> [u64; 4] {
        [0; 4]
    }

    fn contains(&self, i: u8) -> bool {
        bits::contains(self, i)
    }

    fn add(&mut self, i: u8) {
        bits::add(self, i);
    }

    fn add_unlike(&mut self, one: &[u64; 4], other: &[u64; 4]) {
        for (q, word) in self.iter_mut().enumerate() {
            let x = one[q];
            let y = other[q];
            let unlike = bits::joined(linking::without(x, y), linking::without(y, x));
            *word = bits::joined(*word, unlike);
        }
    }

    fn least(&self) -> Option<u8> {
        bits::least(self)
    }
}
