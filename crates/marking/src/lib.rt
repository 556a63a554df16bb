// Ranks marked as bits of words: that of the action that sets a value, or one before that of the action that leaves a value.
#![tactic(auto)]

ghost use Rattle.std.specs.Prelude.{◌≡◌, ◌≢◌, ◌+◌, ◌<◌, length, get_or};
ghost use Rattle.marking.specs.Marking.{Ranked, SetterMarked, LeaverMarked};

// The word with the rank of the action that sets the value q at index j, unless it is the start.
pub fn with_setter(word: u64, q: u8, start: u8, j: usize, ranks: &[u8], setters: &[u8; 512]) -> u64
    requires { (j < 512) × Ranked ranks.now × (q ≢ start → get_or setters.now j 0 < length ranks.now) }
    ensures { SetterMarked word q start (get_or ranks.now (get_or setters.now j 0) 0) result }
{
    if q == start {
        return word;
    }
    bits::with_bit(word, ranks[tables::wide(setters[j])])
}

// Puts a rank before that of the action that leaves the step's value, unless the walk ends there.
pub fn put_before(step: u16, rank: u8, ranks: &[u8], before: &mut [u64; 64])
    requires { (length before.old ≡ 64) × (rank < 64) × Ranked ranks.now × (step < length ranks.now + 2) }
    ensures { LeaverMarked step rank ranks.now before.old before.new }
{
    if 1 < step {
        let leaver = ranks[(step - 2) as usize];
        let l = tables::wide(leaver);
        before[l] = bits::with_bit(before[l], rank);
    }
}
