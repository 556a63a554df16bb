// The events of an access log, one after another, on the rows of the actions.
#![tactic(auto)]

mod looking;

ghost use Rattle.std.specs.Prelude.{◌≡◌, ℕ, ◌<◌, length};
ghost use Rattle.study.specs.Study.{Study};
ghost use Rattle.plans.specs.Plans.{start_state};
ghost use Rattle.barring.specs.Telling.{Ready, shown};
ghost use Rattle.following.specs.Following.{Takes, Came};

use answer::Refusal;
use barring::Want;
use occupant::Occupant;

// Where a log leads to: the occupant, how many events were done and how many held.
#[derive(Clone, Copy)]
pub struct Followed {
    pub occupant: Occupant,
    pub done: u64,
    pub held: u64,
}

// Does an event's action if it may be done, and tells what it lacks.
fn take(file: &[u8], action: u8, acts: &[[u8; 6]; 256], state: &mut [u8; 32]) -> Option<Want>
    requires { (t : Study) × (actions : ℕ) × Ready file.now actions acts.now t × (action < actions) }
    ensures { (t : Study) (actions : ℕ)
        → Ready file.now actions acts.now t
        → action < actions
        → length state.old ≡ 32
        → Takes t action state.old state.new result }
{
    let act = tables::action_at(acts, tables::wide(action));
    let lack = barring::barred(file, act, state);
    if lack.is_none() {
        state[tables::wide(act.var)] = act.post;
    }
    lack
}

// Replays the events of a log until one is refused; they alter the state.
pub fn follow(
    file: &[u8],
    log: &[u8],
    actions: usize,
    acts: &[[u8; 6]; 256],
    state: &mut [u8; 32],
) -> Result<Followed, Refusal>
    requires { (t : Study) × Ready file.now actions acts.now t }
    ensures { (t : Study)
        → Ready file.now actions acts.now t
        → length state.old ≡ 32
        → shown t state.old ≡ start_state t
        → Came t log.now state.new result }
{
    let mut one = Occupant {
        stance: None,
        sum: 0,
    };
    let mut held = 0;
    let mut last = 0;
    let many = looking::whole(log);
    for k in 0..many {
        let event = looking::look(log, 4 * k, last, actions, acts)?;
        let lack = take(file, event.action, acts, state);
        one.move_on(lack, event.step as u64);
        held += lack.is_some() as u64;
        last = event.tick;
    }
    looking::behind(log, 4 * many)?;
    Ok(Followed {
        occupant: one,
        done: (log.len() / 4) as u64 - held,
        held,
    })
}
