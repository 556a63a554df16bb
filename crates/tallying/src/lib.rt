// How often each action stands at each position of plans that are kept beside one another.
#![tactic(auto)]

ghost use Rattle.std.specs.Prelude.{◌≡◌, List, ◌++◌, ℕ, ◌+◌, ◌*◌, ◌≤◌, length, take, drop, replicate};
ghost use Rattle.varied.specs.Figures.{rows};
ghost use Rattle.matching.specs.Kept.{Kept, RoomFor, KeptBelow};
ghost use Rattle.tallying.specs.Tallied.{tallied, AllBelow};

// Counts the entries, each of them the number of an action, in a row that is clear.
fn count(entries: &[u8], row: &mut [u8])
    requires { (length entries.now ≤ 64) × AllBelow (length row.old) entries.now
        × (row.old ≡ replicate (length row.old) 0) }
    ensures { row.new ≡ tallied entries.now (length row.old) }
{
    for entry in entries {
        row[tables::wide(*entry)] += 1;
    }
}

// Fills a row with how often each action is among the entries.
fn tally(entries: &[u8], row: &mut [u8])
    requires { (length entries.now ≤ 64) × AllBelow (length row.old) entries.now }
    ensures { row.new ≡ tallied entries.now (length row.old) }
{
    row.fill(0);
    count(entries, row);
}

// Fills the report's rows from up to 64 plans that are kept beside it, 64 bytes to a position.
pub fn rows_from(n: usize, len: usize, actions: usize, kept: &[u8], report: &mut [u8])
    requires { (n ≤ 64) × RoomFor 0 64 len kept.now × KeptBelow actions n 0 64 len kept.now × RoomFor 5 actions len report.old }
    ensures { (plans : List (List ℕ))
        → length plans ≡ n
        → Kept kept.now 0 64 len plans
        → report.new ≡ take 5 report.old ++ (rows plans actions 0 len ++ drop (5 + actions * len) report.old) }
{
    for p in 0..len {
        let from = 64 * p;
        let to = from + n;
        let at = 5 + actions * p;
        let next = at + actions;
        tally(&kept[from..to], &mut report[at..next]);
    }
}

// Fills the row from the first n bytes that stand in it.
fn tally_in_place(at: usize, n: usize, actions: usize, report: &mut [u8])
    requires { (n ≤ 64) × (n ≤ actions) × (at + actions ≤ length report.old) × AllBelow actions (take n (drop at report.old)) }
    ensures { report.new ≡ take at report.old
        ++ (tallied (take n (drop at report.old)) actions ++ drop (at + actions) report.old) }
{
    let mut entries = [0u8; 64];
    entries[..n].copy_from_slice(&report[at..at + n]);
    tally(&entries[..n], &mut report[at..at + actions]);
}

// Fills the report's rows from up to 64 plans that are kept in them.
pub fn rows_in_place(n: usize, len: usize, actions: usize, report: &mut [u8])
    requires { (n ≤ 64) × (n ≤ actions) × RoomFor 5 actions len report.old × KeptBelow actions n 5 actions len report.old }
    ensures { (plans : List (List ℕ))
        → length plans ≡ n
        → Kept report.old 5 actions len plans
        → report.new ≡ take 5 report.old ++ (rows plans actions 0 len ++ drop (5 + actions * len) report.old) }
{
    for p in 0..len {
        tally_in_place(5 + actions * p, n, actions, report);
    }
}
