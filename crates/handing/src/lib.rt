// What each stage found, as an answer; and what was taken, handed over as the plan.
#![tactic(auto)]

ghost use Rattle.std.specs.Prelude.{◌≡◌, List, ◌++◌, ℕ, ◌≤◌, length, take, drop};
ghost use Rattle.study.specs.Study.{Study};
ghost use Rattle.lawful.specs.Lawful.{Lawful};
ghost use Rattle.planning.specs.Refusals.{not_ranked};
ghost use Rattle.planning.specs.Planning.{Plans};
ghost use Rattle.handing.specs.Answers.{not_walked, not_met};
ghost use Rattle.handing.specs.Handing.{Taken, InRoom};

use answer::{Answer, Rule};
use ranking::Unranked;
use tracing::NoWalk;
use wanting::Off;

// A list of so many entries that is no rank list.
pub fn unranked(fault: Unranked, len: usize) -> Answer
    ensures { result ≡ not_ranked len (Err fault) }
{
    match fault {
        Unranked::Length => Rule::NoRankList.answer(len as u64, 1),
        Unranked::Entry(k) => Rule::NoRankList.refusal(k as u64),
    }
}

// A variable with no walk, and where its trace breaks off.
pub fn unwalked(walked: Result<usize, NoWalk>) -> Answer
    ensures { result ≡ not_walked walked }
{
    match walked {
        Ok(_) => Answer::done(0, 0),
        Err(fault) => Rule::NoWalk.answer(fault.var as u64, u64::from(fault.breaks.value())),
    }
}

// A condition off its variable's walk.
pub fn unmet(off: Off) -> Answer
    ensures { result ≡ not_met (Err off) }
{
    Rule::OffWalk.answer(off.action as u64, u64::from(off.var))
}

// The first n of the actions taken become the plan's first.
fn copy_out(room: &[u8; 512], n: usize, plan: &mut [u8])
    requires { (n ≤ 256) × (n ≤ length plan.old) × (length room.now ≡ 512) }
    ensures { plan.new ≡ take n (drop 256 room.now) ++ drop n plan.old }
{
    plan[..n].copy_from_slice(&room[256..256 + n]);
}

// So many of the walk actions were taken, and stand in the room: all of them, or 12.
pub fn finish(taken: usize, total: usize) -> Answer
    requires { taken ≤ total }
    ensures { (t : Study) (ranks room : List ℕ)
        → length room ≡ 512
        → Taken t ranks total taken room
        → InRoom t ranks result room }
{
    if taken < total {
        return Rule::Ring.refusal(taken as u64);
    }
    Answer::done(total as u64, 0)
}

// What planning came to, as a call's answer: the plan in the room becomes the first of its buffer, if that has room.
pub fn hand_over(planned: Answer, room: &[u8; 512], plan: &mut [u8]) -> Answer
    requires { (length room.now ≡ 512) × ((t : Study) × (ranks : List ℕ) × Lawful t × InRoom t ranks planned room.now) }
    ensures { (t : Study) (ranks : List ℕ)
        → Lawful t
        → InRoom t ranks planned room.now
        → Plans t ranks plan.old result plan.new }
{
    if planned.number != 0 {
        return planned;
    }
    let total = planned.first as usize;
    if plan.len() < total {
        return Rule::NoRoom.refusal(planned.first);
    }
    copy_out(room, total, plan);
    planned
}
