// What the first of many seeds tells of all, and a plan kept as one of many.
#![tactic(auto)]

ghost use Rattle.std.specs.Prelude.{◌≡◌, List, [], ◌∷◌, ◌++◌, ℕ, ◌+◌, ◌*◌, ◌≤◌, ◌<◌, length, take, drop};
ghost use Rattle.study.specs.Study.{Study};
ghost use Rattle.matching.specs.Kept.{RoomFor, Kept};
ghost use Rattle.keeping.specs.Seeds.{InRange, TakenFirst, Judges};

use answer::{Answer, Rule};
use std::ops::ControlFlow;

// Which seeds, and how many variables, actions and steps of a plan there are.
#[derive(Clone, Copy)]
pub struct Extent {
    pub first: u64,
    pub seeds: usize,
    pub vars: usize,
    pub actions: usize,
    pub total: usize,
}

// So many walk actions were taken with the first seed, which tells of all: it ends with the answer; or each gives a plan, and it
// goes on with how long the report is.
pub fn judge_first(taken: usize, e: Extent, report: &mut [u8]) -> ControlFlow<Answer, usize>
    requires { (e.seeds ≤ 64) × (e.actions * e.total ≤ 65536) }
    ensures { (t : Study) (room : List ℕ)
        → InRange e.first e.seeds
        → e.actions ≡ length t.actions
        → TakenFirst t e taken room
        → Judges t e room report.old report.new result }
{
    if taken < e.total {
        return ControlFlow::Break(heading::all_refused(Rule::Ring, e.seeds, report));
    }
    let length = heading::HEAD + e.actions * e.total;
    if report.len() < length {
        return ControlFlow::Break(Rule::NoRoom.refusal(length as u64));
    }
    ControlFlow::Continue(length)
}

// Keeps what was taken as plan k.
pub fn keep(room: &[u8], len: usize, k: usize, base: usize, stride: usize, region: &mut [u8])
    requires { (length room.now ≡ 512) × (len ≤ 256) × (k < stride) × RoomFor base stride len region.old }
    ensures region_unchanged { drop (base + stride * len) region.new ≡ drop (base + stride * len) region.old }
    ensures by_index { (plans : List (List ℕ))
        → length plans ≡ k
        → Kept region.old base stride len plans
        → Kept region.new base stride len (plans ++ (take len (drop 256 room.now) ∷ [])) }
{
    matching::keep(&room[256..], len, k, base, stride, region);
}
