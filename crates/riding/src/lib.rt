// The journeys of a plan: rides entered in tables by action, journeys counted and written. Nothing of files.
#![tactic(auto)]

ghost use Rattle.std.specs.Prelude.{◌≡◌, [], ◌∷◌, ℕ, ◌+◌, ◌≤◌, ◌<◌, length, take, drop, IfOk};
ghost use Rattle.std.proofs.Math.Option.{some};
ghost use Rattle.orders.specs.Orders.{In};
ghost use Rattle.rides.specs.Rides.{ride, rides_of, ride_fault, wrong_with_lem};
ghost use Rattle.rides.specs.Journeys.{journeys_from, step_makes, bytes_of};
ghost use Rattle.rides.specs.Answers.{Laid, RidesAllow};
ghost use Rattle.riding.specs.Tables.{ride_in, Sized, Fresh, Holds, Placed, number_told, fault_told};

use answer::{Answer, Rule};

// Marks an action without a ride in a table of floors: an `Option<u8>` for each would take twice the stack.
const NO_FLOOR: u8 = 255;

// The highest floor.
const HIGHEST: u8 = 199;

// Tries the rules on a ride in their order.
fn test(actions: usize, again: bool, action: usize, from: u8, to: u8) -> Result<(), Rule>
    ensures { number_told result ≡ wrong_with_lem actions again (ride action from to) }
{
    if actions <= action {
        return Err(Rule::NoAction);
    }
    if HIGHEST < from || HIGHEST < to {
        return Err(Rule::OutOfRange);
    }
    if from == to {
        return Err(Rule::Improper);
    }
    if again {
        return Err(Rule::Repeats);
    }
    Ok(())
}

// Enters each ride in tables that have none, or tells the first that is at fault. Of the room only the first half is written.
fn enter(
    rides: &[u8],
    actions: usize,
    froms: &mut [u8; 256],
    tos: &mut [u8; 512],
) -> Result<(), Answer>
    requires { Fresh froms.old tos.old }
    ensures sized { Sized froms.new tos.new × (drop 256 tos.new ≡ drop 256 tos.old) }
    ensures value { result ≡ fault_told (ride_fault actions rides.now) }
    ensures holds { IfOk result (λ _. Holds (rides_of rides.now) froms.new tos.new) }
{
    for (k, bytes) in rides.chunks(3).enumerate() {
        let [action, from, to] = *bytes else {
            return Err(Rule::Cut.refusal(k as u64));
        };
        let action = usize::from(action);
        let tested = test(actions, froms[action] != NO_FLOOR, action, from, to);
        if let Err(rule) = tested {
            return Err(rule.refusal(k as u64));
        }
        froms[action] = from;
        tos[action] = to;
    }
    Ok(())
}

// How many journeys a step with a ride makes of a person on this floor.
fn many_made(floor: u8, from: u8) -> usize
    ensures { (result ≤ 2) × ((step i to : ℕ) → result ≡ length (step_makes step floor (some (ride i from to)))) }
{
    if floor == from {
        return 1;
    }
    2
}

// How many journeys the plan makes.
fn count(plan: &[u8], froms: &[u8; 256], tos: &[u8; 512], start: u8) -> usize
    requires { length plan.now ≤ 256 }
    ensures { (result ≤ 512) × (result ≡ length (journeys_from (ride_in froms.now tos.now) 0 start plan.now)) }
{
    let mut floor = start;
    let mut many = 0;
    for action in plan {
        let i = usize::from(*action);
        let begins = froms[i];
        if begins != NO_FLOOR {
            many += many_made(floor, begins);
            floor = tos[i];
        }
    }
    many
}

// A journey's three bytes; the place behind them is answered.
fn put(journeys: &mut [u8], at: usize, step: u8, from: u8, to: u8) -> usize
    requires { at + 3 ≤ length journeys.old }
    ensures { (result ≡ at + 3) × Placed journeys.old at (step ∷ from ∷ to ∷ []) journeys.new }
{
    journeys[at] = step;
    journeys[at + 1] = from;
    journeys[at + 2] = to;
    at + 3
}

// The journeys of a step with a ride.
fn put_step(journeys: &mut [u8], at: usize, step: u8, floor: u8, from: u8, to: u8) -> usize
    requires { (i : ℕ) → at + length (bytes_of (step_makes step floor (some (ride i from to)))) ≤ length journeys.old }
    ensures { (i : ℕ) → (result ≡ at + length (bytes_of (step_makes step floor (some (ride i from to)))))
        × Placed journeys.old at (bytes_of (step_makes step floor (some (ride i from to)))) journeys.new }
{
    if floor == from {
        return put(journeys, at, step, from, to);
    }
    let next = put(journeys, at, step, floor, from);
    put(journeys, next, step, from, to)
}

// The plan's journeys, in front of a buffer that has room for them.
fn write(plan: &[u8], froms: &[u8; 256], tos: &[u8; 512], start: u8, journeys: &mut [u8])
    requires { (length plan.now ≤ 256)
        × (length (bytes_of (journeys_from (ride_in froms.now tos.now) 0 start plan.now)) ≤ length journeys.old) }
    ensures { Placed journeys.old 0 (bytes_of (journeys_from (ride_in froms.now tos.now) 0 start plan.now))
        journeys.new }
{
    let mut floor = start;
    let mut at = 0;
    for (k, action) in plan.iter().enumerate() {
        let i = usize::from(*action);
        let from = froms[i];
        if from != NO_FLOOR {
            at = put_step(journeys, at, k as u8, floor, from, tos[i]);
            floor = tos[i];
        }
    }
}

// The plan's journeys, or 13 with the bytes that they need.
fn lay(plan: &[u8], froms: &[u8; 256], tos: &[u8; 512], start: u8, journeys: &mut [u8]) -> Answer
    requires { length plan.now ≤ 256 }
    ensures { Laid (journeys_from (ride_in froms.now tos.now) 0 start plan.now) journeys.old result journeys.new }
{
    let many = count(plan, froms, tos, start);
    if journeys.len() < 3 * many {
        return Rule::NoRoom.refusal(3 * many as u64);
    }
    write(plan, froms, tos, start, journeys);
    Answer::done(many as u64, 0)
}

// The journeys of the plan that stands in the room from 256 on, in so many steps, of a file with so many actions; or what is at
// fault in the rides. A refusal alters nothing but the room's first half, which takes the floors that rides go to.
pub fn ride(
    room: &mut [u8; 512],
    steps: usize,
    actions: usize,
    rides: &[u8],
    start: u64,
    journeys: &mut [u8],
) -> Answer
    requires { (length room.old ≡ 512) × (steps ≤ 256) × ((i : ℕ) → In i (take steps (drop 256 room.old)) → i < 256) }
    ensures { RidesAllow actions rides.now start (take steps (drop 256 room.old)) journeys.old result journeys.new }
{
    if u64::from(HIGHEST) < start {
        return Rule::OutOfRange.refusal((rides.len() / 3) as u64);
    }
    let mut froms = [NO_FLOOR; 256];
    if let Err(refused) = enter(rides, actions, &mut froms, room) {
        return refused;
    }
    let tos: &[u8; 512] = room;
    let whole = &tos[..];
    lay(&whole[256..256 + steps], &froms, tos, start as u8, journeys)
}
