// Takes one ready walk action after another, always the one of least rank.
#![tactic(auto)]

ghost use Rattle.std.specs.Prelude.{◌≡◌, length};
ghost use Rattle.ranks.specs.Ranks.{Inverse};
ghost use Rattle.study.specs.Study.{Study};
ghost use Rattle.taking.specs.Taking.{PreparedRows, TakesAll};

// Takes from the first 256 entries of `room` the action of each rank, and puts the actions that it takes behind them. By
// variable: `held`, how many conditions of its next action were found to hold; `waiting`, who waits for it. `opened` has the
// ranks of the next actions that may be looked at.
pub fn take_all(
    file: &[u8],
    ranks: &[u8],
    n: usize,
    total: usize,
    acts: &[[u8; 6]; 256],
    steps: &[u16; 512],
    wants: &mut [u16; 512],
    state: &mut [u8; 32],
    room: &mut [u8; 512],
) -> usize
    requires { (length wants.old ≡ 512) × (length state.old ≡ 32) × (length room.old ≡ 512) × Inverse ranks.now room.old
        × ((t : Study) × PreparedRows file.now n (length ranks.now) total acts.now steps.now wants.old state.old t) }
    ensures { TakesAll file.now n ranks.now total acts.now steps.now wants.old
        state.old result room.new }
{
    let mut held = [0u8; 32];
    let mut opened = [0u64; 4];
    let mut waiting = [0u64; 32];
    opening::open_all(n, ranks, steps, wants, state, &mut opened);
    for k in 0..total {
        let next = choosing::best(
            file,
            acts,
            room,
            state,
            &mut held,
            &mut opened,
            &mut waiting,
        );
        let Some(i) = next else {
            return k;
        };
        let a = tables::action_at(acts, i);
        bits::remove(&mut opened, ranks[i]);
        opening::unwant(file, a.place, a.many, ranks, steps, wants, &mut opened);
        let v = tables::wide(a.var);
        state[v] = a.post;
        held[v] = 0;
        opening::open_next(v, ranks, steps, wants, state, &mut opened);
        let some = waiting[v];
        waiting[v] = 0;
        opening::wake(some, ranks, steps, state, &mut opened);
        room[256 + k] = i as u8;
    }
    total
}
