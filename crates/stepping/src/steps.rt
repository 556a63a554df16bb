// The steps of a list, one after another.
ghost use Rattle.std.specs.Prelude.{◌≡◌, List, []};
ghost use Rattle.study.specs.Study.{Study};
ghost use Rattle.plans.specs.Plans.{State};
ghost use Rattle.barring.specs.Telling.{Ready};
ghost use Rattle.stepping.specs.Stepping.{Stage, Takes, Went};

use answer::{Answer, Rule};

// Does step k, which is the action `entry`, or says why not.
fn take_step(
    file: &[u8],
    k: usize,
    entry: u8,
    actions: usize,
    acts: &[[u8; 6]; 256],
    state: &mut [u8; 32],
    held: &mut [u16; 32],
) -> Result<(), Answer>
    requires { (t : Study) × Ready file.now actions acts.now t }
    ensures { (t : Study) (past : List State)
        → Ready file.now actions acts.now t
        → Stage t past state.old held.old
        → Takes t past k entry state.old state.new held.new result }
{
    let i = entry as usize;
    if actions <= i {
        return Err(Rule::NoAction.refusal(k as u64));
    }
    if !tables::in_force(acts, i) {
        return Err(Rule::OutOfForce.refusal(k as u64));
    }
    let act = tables::action_at(acts, i);
    if let Some(want) = barring::barred(file, act, state) {
        return Err(Rule::Barred.answer(k as u64, want.var as u64));
    }
    let v = tables::wide(act.var);
    let word = held[v];
    if marks::has(word, act.post) {
        return Err(Rule::HeldBefore.answer(k as u64, v as u64));
    }
    held[v] = marks::with(word, act.post);
    state[v] = act.post;
    Ok(())
}

// Does the steps of the list until one may not be done.
pub(crate) fn steps(
    file: &[u8],
    plan: &[u8],
    actions: usize,
    acts: &[[u8; 6]; 256],
    state: &mut [u8; 32],
    held: &mut [u16; 32],
) -> Result<(), Answer>
    requires { (t : Study) × Ready file.now actions acts.now t }
    ensures { (t : Study)
        → Ready file.now actions acts.now t
        → Stage t [] state.old held.old
        → Went t plan.now state.old state.new result }
{
    for (k, entry) in plan.iter().enumerate() {
        take_step(file, k, *entry, actions, acts, state, held)?;
    }
    Ok(())
}
