// Takes numbers below 64 one after another, always the least that is ready, each after those that come directly before it.
#![tactic(auto)]

ghost use Rattle.std.specs.Prelude.{◌≡◌, ◌≤◌, ◌<◌, length, IfSome, unwrap_or};
ghost use Rattle.orders.specs.Orders.{Counted};
ghost use Rattle.hanging.specs.Hanging.{InWord, Only, Hangs, LeastFree, TakenByName};

// Up to so many, those that are left are looked at for each that is taken: even the worst order costs no more than knowing who
// hangs on whom. Of more it can cost some times as much; a caller with no stack to spare calls `take_looking` all the same.
const LOOKED_AT: usize = 8;

// A number that has something left before it hangs on one such number, and is not looked at again before that is taken.
fn hang(y: u8, left: u64, ready: u64, before: &[u64; 64], hung: &mut [u64; 64]) -> u64
    requires { (y < 64) × (length hung.old ≡ 64) }
    ensures hung_len { length hung.new ≡ 64 }
    ensures hangs { Hangs (Only y) before.now left ready hung.old result hung.new }
{
    let missing = bits::common(before[y as usize], left);
    if missing == 0 {
        return bits::with_bit(ready, y);
    }
    let x = bits::lowest(missing) as usize;
    hung[x] = bits::with_bit(hung[x], y);
    ready
}

fn hang_all(some: u64, left: u64, ready: u64, before: &[u64; 64], hung: &mut [u64; 64]) -> u64
    requires { length hung.old ≡ 64 }
    ensures hung_len { length hung.new ≡ 64 }
    ensures hangs { Hangs (InWord some) before.now left ready hung.old result hung.new }
{
    let mut rest = some;
    let mut free = ready;
    while rest != 0 {
        let y = bits::lowest(rest);
        rest = bits::without_bit(rest, y);
        free = hang(y, left, free, before, hung);
    }
    free
}

// The least of those left that has nothing left before it.
fn least_free(left: u64, before: &[u64; 64]) -> Option<u8>
    ensures room { IfSome result (λ y. y < 64) }
    ensures least { LeastFree before.now left (unwrap_or result 64) }
{
    let mut rest = left;
    while rest != 0 {
        let y = bits::lowest(rest);
        if bits::common(before[y as usize], left) == 0 {
            return Some(y);
        }
        rest = bits::without_bit(rest, y);
    }
    None
}

// Takes them by looking at those that are left, which needs no table.
pub fn take_looking(members: u64, total: usize, before: &[u64; 64], room: &mut [u8; 512]) -> usize
    requires { (total ≤ 256) × (length room.old ≡ 512) × Counted (InWord members) total }
    ensures upper_bound { (result ≤ total) × (length room.new ≡ 512) }
    ensures taken_by_name { TakenByName members before.now room.old result room.new }
{
    let mut left = members;
    for k in 0..total {
        let Some(y) = least_free(left, before) else {
            return k;
        };
        let i = y as usize;
        left = bits::without_bit(left, y);
        room[256 + k] = room[i];
    }
    total
}

// Takes them by who hangs on whom.
fn take_hanging(members: u64, total: usize, before: &[u64; 64], room: &mut [u8; 512]) -> usize
    requires { (total ≤ 256) × (length room.old ≡ 512) × Counted (InWord members) total }
    ensures upper_bound { (result ≤ total) × (length room.new ≡ 512) }
    ensures taken_by_name { TakenByName members before.now room.old result room.new }
{
    let mut hung = [0u64; 64];
    let mut left = members;
    let mut ready = hang_all(left, left, 0, before, &mut hung);
    for k in 0..total {
        if ready == 0 {
            return k;
        }
        let y = bits::lowest(ready);
        let at = y as usize;
        left = bits::without_bit(left, y);
        room[256 + k] = room[at];
        let waiting = hung[at];
        let others = bits::without_bit(ready, y);
        ready = hang_all(waiting, left, others, before, &mut hung);
    }
    total
}

// The room has the members' names below 256, and takes the names of those that are taken from there on. Answers how many
// were taken: all, or as many as could be.
pub fn take(members: u64, total: usize, before: &[u64; 64], room: &mut [u8; 512]) -> usize
    requires { (total ≤ 256) × (length room.old ≡ 512) × Counted (InWord members) total }
    ensures upper_bound { (result ≤ total) × (length room.new ≡ 512) }
    ensures taken_by_name { TakenByName members before.now room.old result room.new }
{
    if LOOKED_AT < total {
        return take_hanging(members, total, before, room);
    }
    take_looking(members, total, before, room)
}
