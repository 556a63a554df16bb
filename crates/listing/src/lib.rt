// What is wrong with a chart's list and pairs, found in loaded tables; the pairs as rows of bits.
#![tactic(auto)]

mod sets;

ghost use Rattle.std.specs.Prelude.{◌≡◌, ◌↔◌, true, false, List, ℕ, ◌≤◌, ◌<◌, length, get_or, None, IfSome, unwrap_or};
ghost use Rattle.study.specs.Study.{Study};
ghost use Rattle.tables.specs.Rows.{out_column};
ghost use Rattle.tracing.specs.Facts.{TellsForce, WishesIn};
ghost use Rattle.tracing.specs.Steps.{Rowed};
ghost use Rattle.linking.specs.Linking.{Shaped};
ghost use Rattle.walks.specs.Walks.{OnAWalk};
ghost use Rattle.charts.specs.Charts.{pair, pairs_of};
ghost use Rattle.listing.specs.Listing.{FindsUnusable, Empty, SetOf, SetOfWalks, HasJust, FindsAmiss, AllEmpty, TellsStray, Links};

pub use sets::ActionSet;

// The index of the first entry that is no action or out of force.
pub fn first_unusable(list: &[u8], actions: usize, acts: &[[u8; 6]; 256]) -> Option<usize>
    ensures there { IfSome result (λ k. k < length list.now) }
    ensures finds_unusable { (t : Study)
        → actions ≡ length t.actions
        → TellsForce actions (out_column acts.now) t
        → FindsUnusable t list.now (unwrap_or result (length list.now)) }
{
    for (k, entry) in list.iter().enumerate() {
        let i = tables::wide(*entry);
        if actions <= i {
            return Some(k);
        }
        if !tables::in_force(acts, i) {
            return Some(k);
        }
    }
    None
}

// Puts the actions that their step names into a set that is lent empty: those on walks.
pub fn gather_walks(
    actions: usize,
    acts: &[[u8; 6]; 256],
    steps: &[u16; 512],
    members: &mut [u64; 4],
)
    requires { (length members.old ≡ 4) × Empty members.old × ((t : Study) × (file : List ℕ) × WishesIn file actions acts.now t) }
    ensures members_len { length members.new ≡ 4 }
    ensures set_of_walks { (t : Study) (file : List ℕ)
        → WishesIn file actions acts.now t
        → Rowed t (length t.tasks) steps.now
        → SetOfWalks t members.new }
{
    for i in 0..actions {
        let act = tables::action_at(acts, i);
        let j = 16 * tables::wide(act.var) + tables::wide(act.pre);
        if steps[j] == (i + 2) as u16 {
            bits::add(members, i as u8);
        }
    }
}

// The lowest action that stands twice in the list, or in just one of list and members; if there is none, the members are the list's
// actions.
pub fn lowest_amiss<S: ActionSet>(list: &[u8], members: &S) -> Option<u8>
    requires entries { (k : ℕ) → k < length list.now → get_or list.now k 0 < S.room }
    requires few_members { (i : ℕ) → S.has members.now i ≡ true → i < 256 }
    ensures set_of { result ≡ None → HasJust list.now (S.has members.now) }
    ensures finds_amiss { (t : Study)
        → ((i : ℕ) → (S.has members.now i ≡ true) ↔ OnAWalk t i)
        → FindsAmiss t list.now (unwrap_or result 256) }
{
    let mut listed = S::empty();
    let mut amiss = S::empty();
    for i in list {
        if listed.contains(*i) {
            amiss.add(*i);
        }
        listed.add(*i);
    }
    amiss.add_unlike(&listed, members);
    amiss.least()
}

// How many pairs so many bytes are.
pub fn many_pairs(len: usize) -> usize
    ensures { (pairs : List ℕ) → length pairs ≡ len → length (pairs_of pairs) ≡ result }
{
    len / 2 + len % 2
}

// Whether one of two actions is not listed, or the two are one.
pub fn stray<S: ActionSet>(x: u8, y: u8, listed: &S) -> bool
    ensures both_listed { result ≡ false → (S.has listed.now x ≡ true) × (S.has listed.now y ≡ true) }
    ensures tells { (list : List ℕ) → HasJust list (S.has listed.now) → TellsStray list (pair x y) result }
{
    if x == y {
        return true;
    }
    if !listed.contains(x) {
        return true;
    }
    !listed.contains(y)
}

// The index of the first pair that names an action that is not listed, or an action and itself; if there is none, each second is in
// the row of its first. A last byte that stands alone is such a pair.
pub fn link_all(pairs: &[u8], listed: &[u64; 4], rows: &mut [[u64; 4]; 256]) -> Option<usize>
    requires { Shaped rows.old × AllEmpty rows.old }
    ensures shaped { Shaped rows.new }
    ensures there { IfSome result (λ k. k < length (pairs_of pairs.now)) }
    ensures by_index { (list : List ℕ)
        → SetOf list listed.now
        → Links list (pairs_of pairs.now) rows.new (unwrap_or result (length (pairs_of pairs.now))) }
{
    let whole = pairs.len() / 2;
    for k in 0..whole {
        let x = pairs[2 * k];
        let y = pairs[2 * k + 1];
        if stray(x, y, listed) {
            return Some(k);
        }
        bits::add(&mut rows[tables::wide(x)], y);
    }
    if pairs.len() % 2 == 1 {
        return Some(whole);
    }
    None
}
