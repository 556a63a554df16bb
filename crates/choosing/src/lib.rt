// Which ready action is taken next.
#![tactic(auto)]

ghost use Rattle.std.specs.Prelude.{List, ℕ, ◌≤◌};
ghost use Rattle.tables.specs.Rows.{var_column, place_column, many_column};
ghost use Rattle.opening.specs.Conditions.{Readable, FirstOpen};
ghost use Rattle.choosing.specs.Choosing.{Noted, Guarded, Chosen};
ghost use Rattle.choosing.specs.OpenRight.{OpenRight};

// The first of an action's conditions that fails, not before a number; or how many there are.
fn count_held(file: &[u8], place: usize, many: u8, state: &[u8; 32], from: u8) -> u8
    requires { Readable file.now place many × (from ≤ many) }
    ensures { FirstOpen file.now place many state.now from result }
{
    for k in from..many {
        let at = place + 3 * usize::from(k);
        if state[usize::from(file[at + 1])] != file[at + 2] {
            return k;
        }
    }
    many
}

// The ready action of least rank. A rank that is least and whose action is not ready is taken out, and the action's
// variable waits for the variable of the condition that fails. The conditions found to hold are not looked at again.
pub fn best(
    file: &[u8],
    acts: &[[u8; 6]; 256],
    room: &[u8; 512],
    state: &[u8; 32],
    held: &mut [u8; 32],
    opened: &mut [u64; 4],
    waiting: &mut [u64; 32],
) -> Option<usize>
    requires { (ranks : List ℕ) × (steps : List ℕ) × (wants : List ℕ) × (n : ℕ)
        × Guarded file.now (var_column acts.now) (place_column acts.now) (many_column acts.now) steps state.now ranks room.now n held.old
        × OpenRight ranks file.now (place_column acts.now) (many_column acts.now) steps wants state.now opened.old waiting.old n }
    ensures { (ranks steps wants : List ℕ) (n : ℕ)
        → Guarded file.now (var_column acts.now) (place_column acts.now) (many_column acts.now) steps state.now
        ranks room.now n held.old
        → OpenRight ranks file.now (place_column acts.now) (many_column acts.now) steps wants state.now
        opened.old waiting.old n
        → Chosen ranks n file.now (place_column acts.now) (many_column acts.now) steps wants state.now result
        × OpenRight ranks file.now (place_column acts.now) (many_column acts.now) steps wants state.now
        opened.new waiting.new n
        × Noted file.now (place_column acts.now) (many_column acts.now) steps state.now held.old held.new }
{
    loop {
        let Some(r) = bits::least(opened) else {
            return None;
        };
        let i = tables::wide(room[r as usize]);
        let a = tables::action_at(acts, i);
        let v = tables::wide(a.var);
        let k = count_held(file, a.place, a.many, state, held[v]);
        if a.many <= k {
            return Some(i);
        }
        let on = tables::wide(file[a.place + 3 * tables::wide(k) + 1]);
        held[v] = k;
        waiting[on] = bits::with_bit(waiting[on], a.var);
        bits::remove(opened, r);
    }
}
