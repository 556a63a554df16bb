// The records of actions written, each followed by its conditions and its situations.
#![tactic(auto)]

ghost use Rattle.std.specs.Prelude.{◌≡◌, map, ◌*◌, ◌%◌, length};
ghost use Rattle.spelling.specs.Spelling.{spelled};
ghost use Rattle.spelling.specs.Lists.{condition_record, action_records};
ghost use Rattle.spelling.specs.Lent.{conditions_in, actions_in, announced};
ghost use Rattle.putting.specs.Put.{Fits, Put};

fn put_conditions(conditions: &[u8], begin: usize, file: &mut [u8]) -> usize
    requires { (length conditions.now % 2 ≡ 0)
        × Fits (spelled (map condition_record (conditions_in conditions.now))) begin file.old }
    ensures { Put (spelled (map condition_record (conditions_in conditions.now))) begin file.old file.new result }
{
    let mut at = begin;
    let (pairs, _) = conditions.as_chunks::<2>();
    for [var, value] in pairs {
        at = putting::put([3, *var, *value], at, file);
    }
    at
}

// Each action is followed by its conditions and its situations.
pub fn put_actions(actions: &[u8], conditions: &[u8], begin: usize, file: &mut [u8]) -> usize
    requires { (length actions.now % 5 ≡ 0) × (length conditions.now ≡ 2 * announced actions.now)
        × Fits (spelled (action_records (actions_in actions.now (conditions_in conditions.now)))) begin file.old }
    ensures { Put (spelled (action_records (actions_in actions.now (conditions_in conditions.now)))) begin
        file.old file.new result }
{
    let mut at = begin;
    let mut used = 0;
    let (entries, _) = actions.as_chunks::<5>();
    for [var, pre, post, set, many] in entries {
        at = putting::put([2, *var, *pre, *post], at, file);
        let next = used + 2 * usize::from(*many);
        at = put_conditions(&conditions[used..next], at, file);
        at = putting::put_unless(255, 7, *set, at, file);
        used = next;
    }
    at
}
