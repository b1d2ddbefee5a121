// Cost vectors: under the ceilings, at most, earlier, sum; four numbers of memory as a vector.
// One function each for every number of objectives.
#![tactic(auto)]

ghost use Rattle.std.specs.Prelude.{◌≡◌, ◌+◌, ◌≤◌, length, take, drop};
ghost use Rattle.model.specs.Basics.{All};
ghost use Rattle.model.specs.Limits.{max_objectives};
ghost use Rattle.model.specs.Vectors.{at_most, added};
ghost use Rattle.vectors.specs.Fronts.{front_under, front_at_most, front_earlier, Half};
ghost use Rattle.vectors.specs.Comparisons.{FrontSays};

// Whether each of the first `p` costs is strictly below its ceiling.
pub fn is_under(a: [u64; 4], ceilings: [u64; 4], p: usize) -> bool
    requires { p ≤ max_objectives }
    ensures { result ≡ front_under p a ceilings }
{
    for i in 0..p {
        if a[i] >= ceilings[i] {
            return false;
        }
    }
    true
}

// Whether `a` matches or beats `b`: each of the first `p` numbers is at most the other's, whatever stands beyond them.
// The one such test, of costs and of bounds in every direction. It is lent both, so that no caller copies them.
pub fn is_at_most(a: &[u64], b: &[u64], p: usize) -> bool
    requires { (p ≤ length a.now) × (p ≤ length b.now) }
    ensures { result ≡ front_at_most p a.now b.now }
{
    is_rest_at_most(a, b, 0, p)
}

// What one vector is to another.
#[derive(Clone, Copy)]
pub enum Comparison {
    Beats,
    Beaten,
    Same,
    Neither,
}

// Whether each of the first `p` numbers of `a` is at most that of `b`, from number `i` on.
fn is_rest_at_most(a: &[u64], b: &[u64], i: usize, p: usize) -> bool
    requires { (i ≤ p) × (p ≤ length a.now) × (p ≤ length b.now) }
    ensures { result ≡ at_most (drop i (take p a.now)) (drop i (take p b.now)) }
{
    for j in i..p {
        let is_more = a[j] > b[j];
        if is_more {
            return false;
        }
    }
    true
}

// What `a` is to `b` by their first `p` numbers, whatever stands beyond them. It is lent both, so that no caller copies
// them. Once a number of `a` is larger, only those behind it are left to ask.
pub fn compare(a: &[u64], b: &[u64], p: usize) -> Comparison
    requires { (p ≤ length a.now) × (p ≤ length b.now) }
    ensures { FrontSays p result a.now b.now }
{
    let mut less = false;
    for i in 0..p {
        if b[i] < a[i] {
            if less {
                return Comparison::Neither;
            }
            if is_rest_at_most(b, a, i, p) {
                return Comparison::Beaten;
            }
            return Comparison::Neither;
        }
        if b[i] > a[i] {
            less = true;
        }
    }
    if less {
        return Comparison::Beats;
    }
    Comparison::Same
}

// Whether `a` comes before `b` in list order, by the first `p` costs.
#[tactic(auto, using(crate::proofs::ListOrder::front_before))]
pub fn is_earlier(a: [u64; 4], b: [u64; 4], p: usize) -> bool
    requires { p ≤ max_objectives }
    ensures { result ≡ front_earlier p a b }
{
    // `cmp`, since `<` of slices is slower.
    a[..p].cmp(&b[..p]).is_lt()
}

// The sum of two vectors in all four objectives; numbers of half the range cannot wrap.
pub fn sum(a: [u64; 4], b: [u64; 4]) -> [u64; 4]
    requires { All Half a × All Half b }
    ensures { result ≡ added a b }
{
    // As a chain of `zip` and `map` into an array it would be no plainer than the four sums.
    [a[0] + b[0], a[1] + b[1], a[2] + b[2], a[3] + b[3]]
}

// The four numbers of memory that stand from `at` on.
pub fn numbers_at(work: &[u32], at: usize) -> [u64; 4]
    requires { at + 4 ≤ length work.now }
    ensures { result ≡ take max_objectives (drop at work.now) }
{
    // No `map` or `from_fn`: a closure that reads memory is no plainer than its four numbers.
    [
        work[at] as u64,
        work[at + 1] as u64,
        work[at + 2] as u64,
        work[at + 3] as u64,
    ]
}
