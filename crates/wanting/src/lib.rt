// The values that the conditions of walk actions want.
#![tactic(auto)]

ghost use Rattle.std.specs.Prelude.{◌≡◌, ℕ, ◌+◌, ◌*◌, ◌≤◌, length, get_or};
ghost use Rattle.study.specs.Study.{Study};
ghost use Rattle.walks.specs.Walks.{conditions_of};
ghost use Rattle.tracing.specs.Facts.{WishesIn};
ghost use Rattle.tracing.specs.Steps.{Rowed};
ghost use Rattle.wanting.specs.Wanting.{StandAt, WantsEach, WantsAll};

// The lowest walk action that has a condition off its variable's walk, with the variable of its first such condition.
#[derive(Clone, Copy, Debug, PartialEq, Eq)]
pub struct Off {
    pub action: usize,
    pub var: u8,
}

// Counts each value that the conditions of one action want. Refuses the first that is off its variable's walk, by the variable.
fn want(
    file: &[u8],
    place: usize,
    many: u8,
    steps: &[u16; 512],
    wants: &mut [u16; 512],
) -> Result<(), u8>
    requires { (length wants.old ≡ 512) × ((j : ℕ) → get_or wants.old j 0 ≤ 255 * 255)
        × ((t : Study) × (i : ℕ) × StandAt file.now place many t i) }
    ensures wants_len { (length wants.new ≡ 512)
        × ((j : ℕ) → get_or wants.new j 0 ≤ get_or wants.old j 0 + 255) }
    ensures wants_each { (t : Study) (i : ℕ)
        → StandAt file.now place many t i
        → WantsEach (conditions_of t i) steps.now wants.old wants.new result }
{
    for k in 0..many {
        let at = place + 3 * usize::from(k);
        let u = file[at + 1];
        let j = 16 * usize::from(u) + usize::from(file[at + 2]);
        if steps[j] == 0 {
            return Err(u);
        }
        wants[j] += 1;
    }
    Ok(())
}

// Passes the actions that their step names: those on walks.
pub fn want_all(
    file: &[u8],
    actions: usize,
    acts: &[[u8; 6]; 256],
    steps: &[u16; 512],
    wants: &mut [u16; 512],
) -> Result<(), Off>
    requires { (length wants.old ≡ 512) × ((j : ℕ) → get_or wants.old j 0 ≡ 0)
        × ((t : Study) × WishesIn file.now actions acts.now t) }
    ensures wants_len { length wants.new ≡ 512 }
    ensures wants_all { (t : Study)
        → WishesIn file.now actions acts.now t
        → Rowed t (length t.tasks) steps.now
        → WantsAll t wants.new result }
{
    for i in 0..actions {
        let act = tables::action_at(acts, i);
        let left = steps[16 * usize::from(act.var) + usize::from(act.pre)];
        if left == (i + 2) as u16 {
            if let Err(var) = want(file, act.place, act.many, steps, wants) {
                return Err(Off { action: i, var });
            }
        }
    }
    Ok(())
}
