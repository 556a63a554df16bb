// For each value of each variable, the set of those actions, of some that are looked at, that want it.
#![tactic(auto)]

ghost use Rattle.std.specs.Prelude.{◌≡◌, ◌||◌, ◌&&◌, ℕ, ◌≤◌, ◌<◌, eqb, length};
ghost use Rattle.bits.specs.Bits.{within};
ghost use Rattle.study.specs.Study.{Study};
ghost use Rattle.walks.specs.Walks.{conditions_of};
ghost use Rattle.tracing.specs.Facts.{WishesIn};
ghost use Rattle.wanting.specs.Wanting.{StandAt, wants};
ghost use Rattle.explained.specs.Wanters.{set_at, InFours, AllEmpty, Noted};

// Puts action i among those that want each of its conditions' values.
fn note(file: &[u8], i: u8, place: usize, many: u8, wanters: &mut [[u64; 4]; 512])
    requires { (length wanters.old ≡ 512) × InFours wanters.old × ((t : Study) × (a : ℕ) × StandAt file.now place many t a) }
    ensures wanters_len { (length wanters.new ≡ 512) × InFours wanters.new }
    ensures x_after { (t : Study)
        → StandAt file.now place many t i
        → (v q x : ℕ)
        → v < 32
        → q < 16
        → within (set_at wanters.new v q) x ≡ ((eqb i x && wants (conditions_of t i) v q) || within (set_at wanters.old v q) x) }
{
    for k in 0..many {
        let at = place + 3 * k as usize;
        let j = 16 * tables::wide(file[at + 1]) + tables::wide(file[at + 2]);
        bits::add(&mut wanters[j], i);
    }
}

// Does so with each action of a set.
pub fn note_all(
    file: &[u8],
    actions: usize,
    some: &[u64; 4],
    acts: &[[u8; 6]; 256],
    wanters: &mut [[u64; 4]; 512],
)
    requires { (length wanters.old ≡ 512) × InFours wanters.old × ((t : Study) × WishesIn file.now actions acts.now t) }
    ensures wanters_len { (length wanters.new ≡ 512) × InFours wanters.new }
    ensures noted { (t : Study)
        → WishesIn file.now actions acts.now t
        → AllEmpty wanters.old
        → Noted t actions (λ i. within some.now i) wanters.new }
{
    for i in 0..actions {
        if bits::contains(some, i as u8) {
            let act = tables::action_at(acts, i);
            note(file, i as u8, act.place, act.many, wanters);
        }
    }
}
