// Which variables' next actions may be looked at: their ranks, as bits of four words.
#![tactic(auto)]

ghost use Rattle.std.specs.Prelude.{◌≡◌, true, ℕ, ◌+◌, ◌*◌, ◌<◌, length, get_or};
ghost use Rattle.bits.specs.Bits.{bit};
ghost use Rattle.opening.specs.Conditions.{entry_at, Lowerable, lowered_all};
ghost use Rattle.opening.specs.Opening.{Leads, Joined, Opens, OpensBelow, Freed, Woken, Placed};

// Puts in the rank of the action that a step names, if it names one.
fn open_step(step: u16, ranks: &[u8], opened: &mut [u64; 4])
    requires { (step < length ranks.now + 2) × (length opened.old ≡ 4) }
    ensures { Joined (Leads ranks.now step) opened.old opened.new }
{
    if 1 < step {
        bits::add(opened, ranks[step as usize - 2]);
    }
}

// Puts in the rank of v's next action, if it has one and nothing wants the value that it has.
pub fn open_next(
    v: usize,
    ranks: &[u8],
    steps: &[u16; 512],
    wants: &[u16; 512],
    state: &[u8; 32],
    opened: &mut [u64; 4],
)
    requires { Placed ranks.now steps.now state.now v × (length opened.old ≡ 4) }
    ensures { Joined (Opens ranks.now steps.now wants.now state.now v) opened.old opened.new }
{
    let here = 16 * v + tables::wide(state[v]);
    if wants[here] == 0 {
        open_step(steps[here], ranks, opened);
    }
}

// Puts in the ranks of the first n variables' next actions.
pub fn open_all(
    n: usize,
    ranks: &[u8],
    steps: &[u16; 512],
    wants: &[u16; 512],
    state: &[u8; 32],
    opened: &mut [u64; 4],
)
    requires { ((v : ℕ) → v < n → Placed ranks.now steps.now state.now v) × (length opened.old ≡ 4) }
    ensures { Joined (OpensBelow n ranks.now steps.now wants.now state.now) opened.old opened.new }
{
    for v in 0..n {
        open_next(v, ranks, steps, wants, state, opened);
    }
}

// The wanted values of an action that is taken are no longer wanted by it. Where nobody wants such a value any more, the
// rank of the action that leaves it is put in.
pub fn unwant(
    file: &[u8],
    place: usize,
    many: u8,
    ranks: &[u8],
    steps: &[u16; 512],
    wants: &mut [u16; 512],
    opened: &mut [u64; 4],
)
    requires { Lowerable file.now place many wants.old
        × ((k : ℕ) → k < many → get_or steps.now (entry_at file.now (place + 3 * k)) 0 < length ranks.now + 2)
        × (length wants.old ≡ 512) × (length opened.old ≡ 4) }
    ensures { (wants.new ≡ lowered_all file.now place many wants.old)
        × Joined (Freed file.now place many ranks.now steps.now wants.new) opened.old opened.new }
{
    for k in 0..many {
        let at = place + 3 * usize::from(k);
        let j = 16 * usize::from(file[at + 1]) + usize::from(file[at + 2]);
        let left = wants[j] - 1;
        wants[j] = left;
        if left == 0 {
            open_step(steps[j], ranks, opened);
        }
    }
}

// Puts in the ranks of the next actions of the variables whose bits are set.
pub fn wake(some: u64, ranks: &[u8], steps: &[u16; 512], state: &[u8; 32], opened: &mut [u64; 4])
    requires { ((w : ℕ) → bit some w ≡ true → Placed ranks.now steps.now state.now w) × (length opened.old ≡ 4) }
    ensures { Joined (Woken some ranks.now steps.now state.now) opened.old opened.new }
{
    let mut rest = some;
    while rest != 0 {
        let w = bits::lowest(rest);
        let v = tables::wide(w);
        open_step(steps[16 * v + tables::wide(state[v])], ranks, opened);
        rest = bits::without_bit(rest, w);
    }
}
