// The steps of a run, on the rows of the actions.
#![tactic(auto)]

mod steps;

ghost use Rattle.std.specs.Prelude.{◌≡◌, [], ◌∷◌, length, take};
ghost use Rattle.study.specs.Study.{Study};
ghost use Rattle.barring.specs.Telling.{Ready};
ghost use Rattle.stepping.specs.Stepping.{Marked, Small, Went};

use answer::Answer;

// Marks each variable's value as held, and no other value.
fn mark_starts(n: usize, state: &[u8; 32], held: &mut [u16; 32])
    requires { Small n state.now × (length held.old ≡ 32) }
    ensures { Marked n held.new (take n state.now ∷ []) }
{
    for v in 0..n {
        held[v] = marks::with(0, state[v]);
    }
}

// Does the steps of the list, from the state on, until one may not be done; they alter the state.
pub fn do_steps(
    file: &[u8],
    plan: &[u8],
    n: usize,
    actions: usize,
    acts: &[[u8; 6]; 256],
    state: &mut [u8; 32],
) -> Result<(), Answer>
    requires { Small n state.old × ((t : Study) × Ready file.now actions acts.now t) }
    ensures { (t : Study)
        → Ready file.now actions acts.now t
        → n ≡ length t.counts
        → length state.old ≡ 32
        → Went t plan.now state.old state.new result }
{
    let mut held = [0u16; 32];
    mark_starts(n, state, &mut held);
    steps::steps(file, plan, actions, acts, state, &mut held)
}
