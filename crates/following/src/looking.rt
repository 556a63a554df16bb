// What stands at a place of a log: an event that is in order, or what refuses it; and what stands behind the whole events.
ghost use Rattle.std.specs.Prelude.{◌≡◌, ℕ, ◌+◌, ◌*◌, ◌≤◌, ◌<◌, List, length};
ghost use Rattle.study.specs.Study.{Study};
ghost use Rattle.replays.specs.Replay.{Progress, step_at};
ghost use Rattle.barring.specs.Telling.{Ready};
ghost use Rattle.following.specs.Following.{Sound, Looks, Left};

use answer::{Refusal, Rule};

// An event with its action, its tick and its step.
#[derive(Clone, Copy)]
pub(crate) struct Event {
    pub(crate) action: u8,
    pub(crate) tick: u16,
    pub(crate) step: u16,
}

// Two bytes, most significant first.
fn tick_of(high: u8, low: u8) -> u16
    ensures { result ≡ 256 * high + low }
{
    (high as u16) * 256 + (low as u16)
}

// The step to a tick from the last one, round the roll; the first event's is 0.
fn step_to(at: usize, last: u16, tick: u16) -> u16
    ensures { result ≡ step_at at last tick }
{
    if at == 0 {
        return 0;
    }
    std::num::wrapping_sub_u16(tick, last)
}

// How many events are whole, of those that a log may have.
pub(crate) fn whole(log: &[u8]) -> usize
    ensures { (4 * result ≤ length log.now) × (result ≤ 16384) × (4 * result + 4 ≤ length log.now → 16384 ≤ result) }
{
    (log.len() / 4).min(16384)
}

pub(crate) fn look(
    log: &[u8],
    at: usize,
    last: u16,
    actions: usize,
    acts: &[[u8; 6]; 256],
) -> Result<Event, Refusal>
    requires { (at + 4 ≤ length log.now) × (at < 65536) }
    ensures sound { Sound log.now at actions result }
    ensures by_index { (file : List ℕ) (t : Study) (p : Progress)
        → Ready file actions acts.now t
        → at ≡ 4 * (p.done + p.held)
        → last ≡ p.last
        → Looks t p log.now at result }
{
    if log[at] != 16 {
        return Err(Rule::NoKind.at(at));
    }
    let action = log[at + 3];
    if actions <= tables::wide(action) {
        return Err(Rule::NoAction.at(at));
    }
    if !tables::in_force(acts, tables::wide(action)) {
        return Err(Rule::OutOfForce.at(at));
    }
    let tick = tick_of(log[at + 1], log[at + 2]);
    let step = step_to(at, last, tick);
    if 32768 <= step {
        return Err(Rule::WentBack.at(at));
    }
    Ok(Event { action, tick, step })
}

// What is behind the whole events: the log's end, or what refuses it there.
pub(crate) fn behind(log: &[u8], at: usize) -> Result<(), Refusal>
    requires { (at ≤ length log.now) × (at + 4 ≤ length log.now → 65536 ≤ at) }
    ensures { (t : Study) (p : Progress) → at ≡ 4 * (p.done + p.held) → Left t p log.now at result }
{
    if at == log.len() {
        return Ok(());
    }
    if log[at] != 16 {
        return Err(Rule::NoKind.at(at));
    }
    if log.len() - at < 4 {
        return Err(Rule::Cut.at(at));
    }
    Err(Rule::WrongCount.at(at))
}
