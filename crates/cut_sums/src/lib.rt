// Passes in list order over the sums of two lists' points in work memory. A half's choice has 0 for the other half's
// variables, so merging is adding.
#![tactic(auto)]

ghost use Rattle.std.specs.Prelude.{◌≡◌, [], ◌+◌, ◌<◌, ◌≤◌, length, take};
ghost use Rattle.model.specs.Basics.{All, keep_if};
ghost use Rattle.model.specs.Limits.{max_objectives, max_variables, max_points};
ghost use Rattle.model.specs.Core.{core_sum_end, under};
ghost use Rattle.model.specs.Vectors.{added};
ghost use Rattle.model.specs.Frontiers.{best};
ghost use Rattle.model.specs.Search.{nothing};
ghost use Rattle.model.specs.Merging.{ahead, sum_of, sums_with, least_left};
ghost use Rattle.layout.specs.Layout.{list_end, row_width};
ghost use Rattle.rows.specs.Rows.{row_at, point_in, list_in};
ghost use Rattle.pass_search.specs.States.{held_of};
ghost use Rattle.pass_list.specs.Says.{FoundSays};
ghost use Rattle.cut_sums.specs.Sums.{point_of, second_in, sums_in, SmallCosts, Values, Paired, Halved};

// The first `n` values of two choices added; zeros behind them.
fn choice_sum(x: [u8; 24], y: [u8; 24], n: usize) -> [u8; 24]
    requires { (n ≤ max_variables) × Values (added (take n x) (take n y)) }
    ensures { take n result ≡ added (take n x) (take n y) }
{
    let mut sum = [0u8; 24];
    for i in 0..n {
        sum[i] = x[i] + y[i];
    }
    sum
}

// The first `p` costs of two vectors added, which are sums of the core; zeros behind them.
// Not one function with `choice_sum`: a width, a bound and the addition as parameters would be no plainer.
fn costs_sum(x: [u64; 4], y: [u64; 4], p: usize) -> [u64; 4]
    requires { (p ≤ max_objectives) × All (λ c. c < core_sum_end) (take p x)
        × All (λ c. c < core_sum_end) (take p y) }
    ensures { take p result ≡ added (take p x) (take p y) }
{
    let mut sum = [0u64; 4];
    for i in 0..p {
        sum[i] = x[i] + y[i];
    }
    sum
}

// The sum of the points in rows `i` and `j`.
fn sum_of(work: &[u32], i: usize, j: usize, p: usize, n: usize) -> pass_search::Met
    requires { (p ≤ max_objectives) × (n ≤ max_variables) × (row_at i + row_width ≤ length work.now)
        × (row_at j + row_width ≤ length work.now)
        × SmallCosts (point_in p n work.now i) × SmallCosts (point_in p n work.now j)
        × Values (added (point_in p n work.now i).choice (point_in p n work.now j).choice) }
    ensures { point_of p n result ≡ sum_of (point_in p n work.now i) (point_in p n work.now j) }
{
    let costs = costs_sum(rows::row_costs(i, work), rows::row_costs(j, work), p);
    let choice = choice_sum(rows::row_choice(i, work), rows::row_choice(j, work), n);
    pass_search::Met { costs, choice }
}

// Whether a sum comes before the point held: by its costs, and at equal costs by its choice.
fn is_ahead(sum: pass_search::Met, held: pass_search::Met, p: usize, n: usize) -> bool
    requires { (p ≤ max_objectives) × (n ≤ max_variables) }
    ensures { result ≡ ahead (point_of p n sum) (point_of p n held) }
{
    let costs = sum.costs;
    let before = held.costs;
    if vectors::is_earlier(costs, before, p) {
        return true;
    }
    if vectors::is_earlier(before, costs, p) {
        return false;
    }
    let choice = sum.choice;
    let other = held.choice;
    rows::is_earlier_choice(choice, other, n)
}

// What is held once a sum is met: the nearer of the two,
// if the sum is under the ceilings and the `k` listed points do not match it.
fn take_sum(
    held: Option<pass_search::Met>,
    sum: pass_search::Met,
    n: usize,
    work: &[u32],
    k: usize,
    p: usize,
    ceilings: [u64; 4],
) -> Option<pass_search::Met>
    requires { (list_end ≤ length work.now) × (k ≤ max_points) × (p ≤ max_objectives) × (n ≤ max_variables) }
    ensures { held_of p n result
        ≡ least_left (list_in p n work.now 0 k)
        (keep_if (under (take p sum.costs) (take p ceilings)) (point_of p n sum) [])
        (held_of p n held) }
{
    let costs = sum.costs;
    if !vectors::is_under(costs, ceilings, p) {
        return held;
    }
    if pass_search::is_matched(costs, n, work, k, p) {
        return held;
    }
    if let Some(least) = held {
        if !is_ahead(sum, least, p, n) {
            return held;
        }
    }
    Some(sum)
}

// Meets the sums of the point in row `i` with all `b` points of the second half.
fn meet_row(
    held: Option<pass_search::Met>,
    i: usize,
    b: usize,
    n: usize,
    work: &[u32],
    k: usize,
    p: usize,
    ceilings: [u64; 4],
) -> Option<pass_search::Met>
    requires { Paired p n k i b work.now }
    ensures { held_of p n result
        ≡ least_left (list_in p n work.now 0 k)
        (sums_with (take p ceilings) (point_in p n work.now i) (second_in p n work.now b))
        (held_of p n held) }
{
    let mut best = held;
    for j in 0..b {
        let sum = sum_of(work, i, layout::SECOND_ROW + j, p, n);
        best = take_sum(best, sum, n, work, k, p, ceilings);
    }
    best
}

// One pass: the least sum, in list order, that the `k` listed points do not match.
pub fn next_sum(
    a: usize,
    b: usize,
    n: usize,
    work: &[u32],
    k: usize,
    p: usize,
    ceilings: [u64; 4],
) -> Option<pass_search::Met>
    requires { Halved p n k a b work.now }
    ensures { held_of p n result
        ≡ least_left (list_in p n work.now 0 k) (sums_in p n ceilings work.now a b) nothing }
{
    let mut best = None;
    for i in 0..a {
        best = meet_row(best, layout::FIRST_ROW + i, b, n, work, k, p, ceilings);
    }
    best
}

// Passes until no sum is left or the room is full: how many points the list has, or `None` where it is longer than
// the room.
// Not one function with `pass_list::find_points`: a pass as a closure would need, as ghost parameters, the points that
// it may give and the memory that it needs as it was, which is no plainer.
pub fn merge_points(
    a: usize,
    b: usize,
    n: usize,
    p: usize,
    ceilings: [u64; 4],
    room: usize,
    work: &mut [u32],
) -> Option<usize>
    requires { Halved p n 0 a b work.old × (room ≤ max_points) }
    ensures { FoundSays p n (best (sums_in p n ceilings work.old a b)) room
        work.old work.new result }
{
    for k in 0..room {
        let Some(met) = next_sum(a, b, n, work, k, p, ceilings) else {
            return Some(k);
        };
        let costs = met.costs;
        let choice = met.choice;
        rows::store_point(costs, choice, p, k, work);
    }
    let next = next_sum(a, b, n, work, room, p, ceilings);
    let is_more = next.is_some();
    (!is_more).then_some(room)
}
