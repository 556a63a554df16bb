// The occupant that a replay moves on, event by event. The values reached stand in a table beside it, which no move copies.
#![tactic(auto)]

ghost use Rattle.std.specs.Prelude.{◌≡◌, ◌+◌, ◌<◌};

use barring::Want;

// What it waits for, if it is not idle, and the sum of all steps.
#[derive(Clone, Copy)]
pub struct Occupant {
    pub stance: Option<Want>,
    pub sum: u64,
}

impl Occupant {
    // An event with this step moves the occupant on, in place.
    pub fn move_on(&mut self, stance: Option<Want>, step: u64)
        requires { self.old.sum + step < 18446744073709551616 }
        ensures { self.new ≡ record { stance = stance; sum = self.old.sum + step } }
    {
        self.stance = stance;
        self.sum += step;
    }
}
