// The walk actions taken variable by variable, each as long as it may be: how many of them can be taken at all.
#![tactic(auto)]

ghost use Rattle.std.specs.Prelude.{◌≡◌, true, false, ℕ, ◌<◌, length};
ghost use Rattle.study.specs.Study.{Study};
ghost use Rattle.opening.specs.Conditions.{Readable, HoldUpTo, Lowerable, lowered_all};
ghost use Rattle.stages.specs.Whole.{WantsCountedIn};
ghost use Rattle.sweeping.specs.Moving.{Guided, Advanced, Passed};
ghost use Rattle.sweeping.specs.Sweeping.{Swept};

use tables::Act;

// Whether all conditions of an action hold.
fn all_hold(file: &[u8], act: Act, state: &[u8; 32]) -> bool
    requires { Readable file.now act.place act.many }
    ensures { (result ≡ true → HoldUpTo file.now act.place state.now act.many)
        × (result ≡ false → HoldUpTo file.now act.place state.now act.many → ⊥) }
{
    for k in 0..act.many {
        let at = act.place + 3 * usize::from(k);
        if state[usize::from(file[at + 1])] != file[at + 2] {
            return false;
        }
    }
    true
}

// The wanted values of an action that is taken are no longer wanted by it.
fn unwant(file: &[u8], act: Act, wants: &mut [u16; 512])
    requires { Lowerable file.now act.place act.many wants.old × (length wants.old ≡ 512) }
    ensures { wants.new ≡ lowered_all file.now act.place act.many wants.old }
{
    for k in 0..act.many {
        let at = act.place + 3 * usize::from(k);
        let j = 16 * usize::from(file[at + 1]) + usize::from(file[at + 2]);
        wants[j] -= 1;
    }
}

// Takes the next actions of variable v, as long as one may be taken. Answers how many.
fn advance(
    file: &[u8],
    v: usize,
    acts: &[[u8; 6]; 256],
    steps: &[u16; 512],
    wants: &mut [u16; 512],
    state: &mut [u8; 32],
) -> usize
    requires { (n : ℕ) × (v < n) × Guided file.now acts.now steps.now n wants.old state.old }
    ensures { (n : ℕ)
        → v < n
        → Guided file.now acts.now steps.now n wants.old state.old
        → Advanced file.now acts.now steps.now n v wants.old state.old result wants.new state.new }
{
    let mut k = 0;
    loop {
        let j = 16 * v + tables::wide(state[v]);
        if wants[j] != 0 {
            return k;
        }
        let step = steps[j];
        if step < 2 {
            return k;
        }
        let act = tables::action_at(acts, step as usize - 2);
        if !all_hold(file, act, state) {
            return k;
        }
        unwant(file, act, wants);
        state[v] = act.post;
        k += 1;
    }
}

// One pass over the variables. Answers how many actions were taken.
fn pass(
    file: &[u8],
    n: usize,
    acts: &[[u8; 6]; 256],
    steps: &[u16; 512],
    wants: &mut [u16; 512],
    state: &mut [u8; 32],
) -> usize
    requires { Guided file.now acts.now steps.now n wants.old state.old }
    ensures { Passed file.now acts.now steps.now n wants.old state.old result wants.new state.new }
{
    let mut k = 0;
    for v in 0..n {
        k += advance(file, v, acts, steps, wants, state);
    }
    k
}

// Pass after pass, until all are taken or a pass takes none. The counts are used up. What is counted grows by as many as a pass takes,
// so this is no `for`.
pub fn sweep(
    file: &[u8],
    n: usize,
    total: usize,
    acts: &[[u8; 6]; 256],
    vars: &[[u8; 3]; 32],
    steps: &[u16; 512],
    wants: &mut [u16; 512],
) -> usize
    requires { (length wants.old ≡ 512)
        × ((t : Study) × (a : ℕ) × WantsCountedIn file.now n a total acts.now vars.now steps.now wants.old t) }
    ensures { (t : Study) (a : ℕ)
        → WantsCountedIn file.now n a total acts.now vars.now steps.now wants.old t
        → Swept t total result }
{
    let mut state = [0u8; 32];
    tables::set_out(n, vars, &mut state);
    let mut k = 0;
    while k < total {
        let some = pass(file, n, acts, steps, wants, &mut state);
        if some == 0 {
            return k;
        }
        k += some;
    }
    k
}
