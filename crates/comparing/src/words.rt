// Sets of actions below 64, as words.

ghost use Rattle.std.specs.Prelude.{◌≡◌};
ghost use Rattle.bits.specs.Bits.{bit};

use listing::ActionSet;

// So many numbers a word has.
const FEW: u8 = 64;

#[derive(Clone, Copy)]
pub struct Word(pub u64);

impl ActionSet for Word {
    ghost has = { λ w. bit w.0 };

    ghost room = { 64 };

    fn empty() -> Word {
        Word(0)
    }

    fn contains(&self, i: u8) -> bool {
        let word = self.0;
        i < FEW && bits::holds(word, i)
    }

    fn add(&mut self, i: u8) {
        self.0 = bits::with_bit(self.0, i);
    }

    fn add_unlike(&mut self, one: &Word, other: &Word) {
        let unlike = bits::joined(
            linking::without(one.0, other.0),
            linking::without(other.0, one.0),
        );
        self.0 = bits::joined(self.0, unlike);
    }

    fn least(&self) -> Option<u8> {
        if self.0 == 0 {
            return None;
        }
        Some(bits::lowest(self.0))
    }
}
