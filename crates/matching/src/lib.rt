// Plans kept beside one another, and how many of them are different. They stand by position in lent bytes: what plan k has at
// position p is at base + stride * p + k.
#![tactic(auto)]

ghost use Rattle.std.specs.Prelude.{◌≡◌, List, [], ◌∷◌, ◌++◌, ℕ, ◌+◌, ◌*◌, ◌≤◌, ◌<◌, length, take, drop};
ghost use Rattle.varied.specs.Figures.{same_list, is_among, different as Figures·different};
ghost use Rattle.matching.specs.Kept.{plan_at, Kept, RoomFor};

// Keeps a plan as plan k.
pub fn keep(plan: &[u8], len: usize, k: usize, base: usize, stride: usize, region: &mut [u8])
    requires { (len ≤ length plan.now) × (k < stride) × RoomFor base stride len region.old }
    ensures region_unchanged { drop (base + stride * len) region.new ≡ drop (base + stride * len) region.old }
    ensures by_index { (plans : List (List ℕ))
        → length plans ≡ k
        → Kept region.old base stride len plans
        → Kept region.new base stride len (plans ++ (take len plan.now ∷ [])) }
{
    for (p, entry) in plan[..len].iter().enumerate() {
        let at = base + stride * p;
        region[at + k] = *entry;
    }
}

// Whether plans j and k are the same.
fn same(j: usize, k: usize, len: usize, base: usize, stride: usize, region: &[u8]) -> bool
    requires { (j < stride) × (k < stride) × RoomFor base stride len region.now }
    ensures { (plans : List (List ℕ))
        → j < length plans
        → k < length plans
        → Kept region.now base stride len plans
        → result ≡ same_list (plan_at plans j) (plan_at plans k) }
{
    for p in 0..len {
        let at = base + stride * p;
        if region[at + j] != region[at + k] {
            return false;
        }
    }
    true
}

// Whether plan j is among those behind it.
fn comes_again(j: usize, n: usize, len: usize, base: usize, stride: usize, region: &[u8]) -> bool
    requires { (j < n) × (n ≤ stride) × RoomFor base stride len region.now }
    ensures { (plans : List (List ℕ))
        → length plans ≡ n
        → Kept region.now base stride len plans
        → result ≡ is_among (plan_at plans j) (drop (j + 1) plans) }
{
    for k in j + 1..n {
        if same(j, k, len, base, stride, region) {
            return true;
        }
    }
    false
}

// How many different plans there are.
pub fn different(n: usize, len: usize, base: usize, stride: usize, region: &[u8]) -> usize
    requires { (n ≤ stride) × RoomFor base stride len region.now }
    ensures upper_bound { result ≤ n }
    ensures by_index { (plans : List (List ℕ))
        → length plans ≡ n
        → Kept region.now base stride len plans
        → result ≡ Figures·different plans }
{
    let mut found = 0;
    for j in 0..n {
        if !comes_again(j, n, len, base, stride, region) {
            found += 1;
        }
    }
    found
}
