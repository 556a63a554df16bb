// The record that a replay leaves: the state, the sum, and what is waited for.
ghost use Rattle.std.specs.Prelude.{◌≡◌, ◌++◌, ◌≤◌, ◌<◌, length, take, drop};
ghost use Rattle.replays.specs.Replay.{sum_bytes};
ghost use Rattle.replaying.specs.Leaving.{told_of, told_bytes};

use barring::Want;
use occupant::Occupant;

// What is waited for in numbers: whether anything is, and which value of which variable.
#[derive(Clone, Copy)]
pub(crate) struct Told {
    waits: u8,
    var: u8,
    value: u8,
}

fn in_numbers(stance: Option<Want>) -> Told
    ensures { result ≡ told_of stance }
{
    match stance {
        None => Told {
            waits: 0,
            var: 0,
            value: 0,
        },
        Some(want) => Told {
            waits: 1,
            var: want.var,
            value: want.value,
        },
    }
}

// The values of the first n variables.
pub(crate) fn put_state(n: usize, state: &[u8; 32], bytes: &mut [u8; 40])
    requires { n ≤ 32 }
    ensures { length state.now ≡ 32 → length bytes.old ≡ 40 → bytes.new ≡ take n state.now ++ drop n bytes.old }
{
    bytes[..n].copy_from_slice(&state[..n]);
}

// The sum, least significant byte first, and the stance; a spare byte is 0.
pub(crate) fn put_end(one: Occupant, bytes: &mut [u8; 40])
    requires { one.sum < 4294967296 }
    ensures { length bytes.old ≡ 40 → bytes.new ≡ take 32 bytes.old ++ (sum_bytes one.sum ++ told_bytes (told_of one.stance)) }
{
    let stance = one.stance;
    let told = in_numbers(stance);
    bytes[32] = (one.sum % 256) as u8;
    bytes[33] = (one.sum / 256 % 256) as u8;
    bytes[34] = (one.sum / 65536 % 256) as u8;
    bytes[35] = (one.sum / 16777216) as u8;
    bytes[36] = told.waits;
    bytes[37] = told.var;
    bytes[38] = told.value;
    bytes[39] = 0;
}
