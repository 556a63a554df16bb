// The plans of one seed after another, of what was loaded: taken, kept and counted.
#![tactic(auto)]

ghost use Rattle.std.specs.Prelude.{◌≡◌, ◌+◌, ◌*◌, ◌≤◌, ◌<◌, length, drop};
ghost use Rattle.study.specs.Study.{Study};
ghost use Rattle.draw.specs.Draw.{drawn};
ghost use Rattle.handing.specs.Handing.{Taken};
ghost use Rattle.matching.specs.Kept.{RoomFor};
ghost use Rattle.keeping.specs.Seeds.{InRange, FirstTaken, KeptAll, Reported};
ghost use Rattle.sampling.specs.Once.{OrderedOnce, CountedOnce};

use keeping::Extent;

// Few actions: takes them by the list that a seed draws.
pub fn take_few_by(
    seed: u64,
    e: Extent,
    members: u64,
    words: &[u64; 64],
    room: &mut [u8; 512],
) -> usize
    requires { (length room.old ≡ 512) × (e.actions ≤ 64) × (1 ≤ seed) × (seed < 2147483647)
        × ((t : Study) × OrderedOnce e members words.now t) }
    ensures upper_bound { (result ≤ e.total) × (length room.new ≡ 512) }
    ensures taken { (t : Study)
        → OrderedOnce e members words.now t
        → Taken t (drawn seed (length t.actions)) e.total result room.new }
{
    let mut ranks = [0u8; 64];
    draw::draw(seed, e.actions as u64, &mut ranks);
    let mut before = [0u64; 64];
    let ranked = renaming::rename_all(members, words, &ranks[..e.actions], &mut before);
    stages::take_few(ranked, e.total, &ranks[..e.actions], &before, room)
}

// Many: the same, from a copy of the counts.
pub fn take_many_by(
    file: &[u8],
    seed: u64,
    e: Extent,
    acts: &[[u8; 6]; 256],
    vars: &[[u8; 3]; 32],
    steps: &[u16; 512],
    wants: &[u16; 512],
    room: &mut [u8; 512],
) -> usize
    requires { (length room.old ≡ 512) × (length wants.now ≡ 512) × (1 ≤ seed) × (seed < 2147483647)
        × ((t : Study) × CountedOnce file.now e acts.now vars.now steps.now wants.now t) }
    ensures upper_bound { (result ≤ e.total) × (length room.new ≡ 512) }
    ensures taken { (t : Study)
        → CountedOnce file.now e acts.now vars.now steps.now wants.now t
        → Taken t (drawn seed (length t.actions)) e.total result room.new }
{
    let mut ranks = [0u8; 256];
    draw::draw(seed, e.actions as u64, &mut ranks);
    let mut left = *wants;
    stages::take_many(
        file,
        &ranks[..e.actions],
        e.vars,
        e.total,
        acts,
        vars,
        steps,
        &mut left,
        room,
    )
}

// Few actions: keeps the plan of the first seed, which was taken, then takes and keeps those of the others.
fn keep_few(e: Extent, members: u64, words: &[u64; 64], room: &mut [u8; 512], kept: &mut [u8])
    requires { (length room.old ≡ 512) × InRange e.first e.seeds × (e.actions ≤ 64) × RoomFor 0 64 e.total kept.old
        × ((t : Study) × OrderedOnce e members words.now t) }
    ensures { (t : Study)
        → OrderedOnce e members words.now t
        → FirstTaken t e room.old
        → KeptAll t e.first e.seeds e.total 0 64 kept.new }
{
    keeping::keep(room, e.total, 0, 0, 64, kept);
    for k in 1..e.seeds {
        take_few_by(e.first + (k as u64), e, members, words, room);
        keeping::keep(room, e.total, k, 0, 64, kept);
    }
}

// Many: a row of the report has more bytes than there are seeds, and keeps them until it is counted.
fn keep_many(
    file: &[u8],
    e: Extent,
    acts: &[[u8; 6]; 256],
    vars: &[[u8; 3]; 32],
    steps: &[u16; 512],
    wants: &[u16; 512],
    room: &mut [u8; 512],
    report: &mut [u8],
)
    requires { (length room.old ≡ 512) × (length wants.now ≡ 512) × InRange e.first e.seeds × (64 < e.actions) × RoomFor 5 e.actions e.total report.old
        × ((t : Study) × CountedOnce file.now e acts.now vars.now steps.now wants.now t) }
    ensures report_unchanged { drop (5 + e.actions * e.total) report.new ≡ drop (5 + e.actions * e.total) report.old }
    ensures kept_all { (t : Study)
        → CountedOnce file.now e acts.now vars.now steps.now wants.now t
        → FirstTaken t e room.old
        → KeptAll t e.first e.seeds e.total 5 e.actions report.new }
{
    keeping::keep(room, e.total, 0, heading::HEAD, e.actions, report);
    for k in 1..e.seeds {
        let seed = e.first + (k as u64);
        take_many_by(file, seed, e, acts, vars, steps, wants, room);
        keeping::keep(room, e.total, k, heading::HEAD, e.actions, report);
    }
}

// The first seed gives a plan, which was taken, so all do. Few actions: the plans are kept apart.
pub fn count_few(
    e: Extent,
    members: u64,
    words: &[u64; 64],
    room: &mut [u8; 512],
    report: &mut [u8],
)
    requires { (length room.old ≡ 512) × InRange e.first e.seeds × (e.actions ≤ 64) × RoomFor 5 e.actions e.total report.old
        × ((t : Study) × OrderedOnce e members words.now t × FirstTaken t e room.old) }
    ensures { (t : Study)
        → OrderedOnce e members words.now t
        → FirstTaken t e room.old
        → Reported t e.first e.seeds e.total report.old report.new }
{
    let mut kept = [0u8; 4096];
    keep_few(e, members, words, room, &mut kept);
    let different = matching::different(e.seeds, e.total, 0, 64, &kept);
    heading::head(e.seeds as u8, 0, 0, 0, different as u8, report);
    tallying::rows_from(e.seeds, e.total, e.actions, &kept, report);
}

// Many: they are kept in the rows.
pub fn count_many(
    file: &[u8],
    e: Extent,
    acts: &[[u8; 6]; 256],
    vars: &[[u8; 3]; 32],
    steps: &[u16; 512],
    wants: &[u16; 512],
    room: &mut [u8; 512],
    report: &mut [u8],
)
    requires { (length room.old ≡ 512) × (length wants.now ≡ 512) × InRange e.first e.seeds × (64 < e.actions) × RoomFor 5 e.actions e.total report.old
        × ((t : Study) × CountedOnce file.now e acts.now vars.now steps.now wants.now t × FirstTaken t e room.old) }
    ensures { (t : Study)
        → CountedOnce file.now e acts.now vars.now steps.now wants.now t
        → FirstTaken t e room.old
        → Reported t e.first e.seeds e.total report.old report.new }
{
    keep_many(file, e, acts, vars, steps, wants, room, report);
    let different = matching::different(e.seeds, e.total, heading::HEAD, e.actions, report);
    heading::head(e.seeds as u8, 0, 0, 0, different as u8, report);
    tallying::rows_in_place(e.seeds, e.total, e.actions, report);
}
