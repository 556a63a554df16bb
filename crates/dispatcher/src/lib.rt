// Makes the lift journeys of a crew's plan.
#![tactic(auto)]

ghost use Rattle.std.specs.Prelude.{◌≡◌, length, drop};
ghost use Rattle.study.specs.Study.{Study};
ghost use Rattle.study.specs.Reading.{says, reading_for};
ghost use Rattle.planning.specs.Planning.{PlanAllows};
ghost use Rattle.journeys.specs.Allowed.{JourneysAllows};

use answer::Answer;

// Plans as `planner::plan` does, and leaves the plan in the room from 256 on. If both calls shared that, it would stand behind
// each as a function of its own, and planning would take more stack than it may. Where loading refuses the file it says nothing of
// its tables, and so nothing of the room.
fn plan_aside(file: &[u8], crew: u64, ranks: &[u8], room: &mut [u8; 512]) -> Answer
    requires { length room.old ≡ 512 }
    ensures room_len { (t : Study) → reading_for file.now crew ≡ says t → length room.new ≡ 512 }
    ensures plan_allows { PlanAllows file.now crew ranks.now (drop 256 room.new) result (drop 256 room.new) }
{
    let mut acts = [[0u8; 6]; 256];
    let mut vars = [[0u8; 3]; 32];
    let loaded = match mustering::load_for(file, crew, &mut acts, &mut vars, room) {
        Ok(loaded) => loaded,
        Err(refusal) => return Answer::from(refusal),
    };
    if let Err(fault) = ranking::test(ranks, loaded.actions) {
        return handing::unranked(fault, ranks.len());
    }
    stages::plan_in_room(file, ranks, loaded.vars, loaded.actions, &acts, &vars, room)
}

// Answer 0 gives the number of journeys and writes them, three bytes each; a refusal alters nothing.
pub fn journeys(
    file: &[u8],
    crew: u64,
    ranks: &[u8],
    rides: &[u8],
    start: u64,
    journeys: &mut [u8],
) -> Answer
    ensures { JourneysAllows file.now crew ranks.now rides.now start journeys.old result journeys.new }
{
    let mut room = [0u8; 512];
    let planned = plan_aside(file, crew, ranks, &mut room);
    if planned.number != 0 {
        return planned;
    }
    let steps = planned.first as usize;
    riding::ride(&mut room, steps, ranks.len(), rides, start, journeys)
}
