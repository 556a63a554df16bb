// The first action of lent entries that repeats an earlier one: what the end record decides.
#![tactic(auto)]

ghost use Rattle.std.specs.Prelude.{◌≡◌, List, ℕ, ◌≤◌, length};
ghost use Rattle.bits.specs.Bits.{bit};
ghost use Rattle.study.specs.Study.{Condition};
ghost use Rattle.spelling.specs.Lent.{actions_in};
ghost use Rattle.repeats.specs.Repeats.{entry_length_lem, place_of, Repeated};

// Whether an action with these situations is in force.
fn in_force(set: u8, situation: u8) -> bool
    requires { situation ≤ 7 }
    ensures { result ≡ bit set situation }
{
    bits::holds(u64::from(set), situation)
}

// How many bytes an action takes in the file, with its conditions and its situations.
fn entry_length(set: u8, many: u8) -> usize
    ensures { (result ≡ entry_length_lem set many) × (result ≤ 771) }
{
    let bytes = 4 + 3 * usize::from(many);
    if set == 255 {
        return bytes;
    }
    bytes + 2
}

// Where what follows these entries stands in the file, the first of them standing at `front`.
fn place_behind(front: usize, entries: &[[u8; 5]]) -> usize
    requires { (front ≤ 30000) × (length entries.now ≤ 256) }
    ensures { result ≡ place_of front entries.now (length entries.now) }
{
    let mut place = front;
    for [_, _, _, set, many] in entries {
        place += entry_length(*set, *many);
    }
    place
}

// The place of the first action in force that sets what an earlier one in force sets, where the first stands at `front`.
pub fn first_repeat(situation: u8, front: usize, actions: &[u8]) -> Option<usize>
    requires { (situation ≤ 7) × (1 ≤ front) × (front ≤ 30000) × (length actions.now ≤ 1280) }
    ensures { (conditions : List Condition) → Repeated situation front (actions_in actions.now conditions) result }
{
    let mut marks = [0u16; 32];
    let (entries, _) = actions.as_chunks::<5>();
    for (k, [var, _, post, set, _]) in entries.iter().enumerate() {
        if in_force(*set, situation) {
            let v = usize::from(*var) % 32;
            if !marks::insert(&mut marks, v, *post % 16) {
                return Some(place_behind(front, &entries[..k]));
            }
        }
    }
    None
}
