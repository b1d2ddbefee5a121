// A sum adapted to the ceilings: its bound comes as near as possible to what they allow. It is found in rounds: each
// one plans with this sum alone, follows its least values to a choice, and gives more to the objectives that this
// choice costs too much in. Nothing is promised of it but that no record is lost.
#![tactic(auto)]

ghost use Rattle.std.specs.Prelude.{◌≤◌, ◌<◌, length};
ghost use Rattle.model.specs.Limits.{max_objectives, max_domain};
ghost use Rattle.layout.specs.Places.{numbers_at};
ghost use Rattle.branch_directions.specs.Directions.{Sensible};
ghost use Rattle.branch_buckets.specs.Content.{Planned};
ghost use Rattle.plan_adapting.specs.Adapting.{max_part, max_sum, Adaptable, Reordered};

// So many rounds.
const ROUNDS: usize = 6;

// The largest share of an objective, and the least.
const MOST_SHARE: u64 = 4096;

const LEAST_SHARE: u64 = 4;

// By so many parts of 64 shares change at first.
const FIRST_STEP: u64 = 128;

// A larger cost counts as this.
const MOST_COST: u64 = 1099511627776;

// A larger top or slack counts as this where it is weighted.
const MOST_TOP: u64 = 4294967296;

// A larger distance counts as this.
const MOST_FAR: u64 = 1125899906842624;

// No bound falls so far short.
const NO_SHORT: u64 = u64::MAX;

// Records and slots whose content is asked for, and the variable for each of whose values.
#[derive(Clone, Copy)]
struct Asked {
    span: branch_buckets::Span,
    own: usize,
}

// What the rounds keep: the shares to try, the best so far with what its bound falls short by, and how much shares
// change.
#[derive(Clone, Copy)]
struct Trial {
    shares: [u64; 4],
    best: [u64; 4],
    short: u64,
    step: u64,
}

// Equal shares of `p` objectives; others have none.
fn equal_shares(p: usize) -> [u64; 4] {
    match p {
        0..=2 => [MOST_SHARE, MOST_SHARE, 0, 0],
        3 => [MOST_SHARE, MOST_SHARE, MOST_SHARE, 0],
        _ => [MOST_SHARE; 4],
    }
}

// A table with four numbers in its first row, and zeros.
fn first_row(v: [u64; 4]) -> [u64; 16] {
    let mut row = [0u64; 16];
    row[..4].copy_from_slice(&v);
    row
}

// The objectives, and one sum with these shares by slacks.
fn one_sum(p: usize, shares: [u64; 4], ranges: plan_sums::Ranges) -> branch_directions::Directions
    requires { (2 ≤ p) × (p ≤ max_objectives) }
    ensures { Sensible result }
{
    let slacks = ranges.slacks;
    let sums = branch_directions::Sums {
        shares: first_row(shares),
        ranges: first_row(slacks),
        count: 1,
    };
    branch_directions::choose_directions(p, sums)
}

// What is asked for, at a choice of the other variables;
// zeros where there are no such records, slots, variable or values.
fn content_of(
    s: &[u8],
    sizes: &[u8],
    r: usize,
    asked: Asked,
    x: [u8; 24],
    d: branch_directions::Directions,
    plan: &[u32],
) -> [u64; 64]
    requires { Planned d r sizes.now s.now plan.now }
{
    let from = asked.span.from;
    let to = asked.span.to.min(r);
    let first = asked.span.first;
    let last = asked.span.last.min(layout::MAX_MESSAGES);
    let own = asked.own;
    let n = sizes.len();
    let choice = &x[..n];
    if from <= to && first <= last && own < n && costs::prefix_ok(sizes, choice) {
        let span = branch_buckets::Span {
            from,
            to,
            first,
            last,
        };
        return branch_buckets::content(s, sizes, span, own, choice, d, plan);
    }
    [0u64; 64]
}

// The bound of every choice in the sum: what no variable decides.
fn root_bound(
    s: &[u8],
    sizes: &[u8],
    r: usize,
    d: branch_directions::Directions,
    plan: &[u32],
) -> u64
    requires { Planned d r sizes.now s.now plan.now }
{
    let span = branch_buckets::Span {
        from: branch_buckets::number_at(plan, layout::RECORD_ENDS_AT),
        to: r,
        first: branch_buckets::number_at(plan, layout::CHILD_ENDS_AT),
        last: branch_buckets::number_at(plan, layout::MESSAGE_ENDS_AT),
    };
    let rows = content_of(s, sizes, r, Asked { span, own: 0 }, [0u8; 24], d, plan);
    let sum = branch_directions::lead_at(d);
    rows[sum % 8]
}

// The first of `size` values that costs least in direction `j`.
fn least_value(rows: [u64; 64], j: usize, size: usize) -> usize
    requires { (j < 8) × (size ≤ max_domain) }
    ensures { result < max_domain }
{
    (0..size).min_by_key(|&a| rows[8 * a + j]).unwrap_or(0)
}

// The choice that follows the least values of the sum, in search order. What a position sent on ahead is the same for
// all of its values.
fn follow(
    s: &[u8],
    sizes: &[u8],
    r: usize,
    d: branch_directions::Directions,
    plan: &[u32],
) -> [u8; 24]
    requires { Planned d r sizes.now s.now plan.now × (numbers_at ≤ length plan.now) }
{
    let n = sizes.len();
    let sum = branch_directions::lead_at(d) % 8;
    let mut x = [0u8; 24];
    for k in 0..n {
        let own = branch_buckets::variable_at(k, plan);
        let span = branch_buckets::span_at(k, plan);
        let rows = content_of(s, sizes, r, Asked { span, own }, x, d, plan);
        let a = least_value(rows, sum, plan_shapes::size_of(own, sizes));
        let y = branch_buckets::with_value(x, own, a);
        x = y;
    }
    x
}

// What a choice costs in each of four objectives. Only those of the problem count.
fn costs_of(
    s: &[u8],
    sizes: &[u8],
    r: usize,
    x: [u8; 24],
    d: branch_directions::Directions,
    plan: &[u32],
) -> [u64; 4]
    requires { Planned d r sizes.now s.now plan.now }
{
    let span = branch_buckets::Span {
        from: 0,
        to: r,
        first: 0,
        last: 0,
    };
    let rows = content_of(s, sizes, r, Asked { span, own: 0 }, x, d, plan);
    let at = 8 * (x[0] as usize % 8);
    std::array::from_fn(|j| rows[at + j])
}

// A weighted number, as it counts.
fn weighted(weight: u64, number: u64) -> u64
    ensures { result ≤ max_part }
{
    weight.min(branch_archive::MAX_WEIGHT) * number.min(MOST_TOP)
}

// The first sum of four numbers. It is written out: std's `sum` asks for a bound that only the terms have.
fn sum_of(d: branch_directions::Directions, v: [u64; 4]) -> u64
    ensures { result ≤ max_sum }
{
    let weights = d.weights;
    weighted(weights[0], v[0])
        + weighted(weights[1], v[1])
        + weighted(weights[2], v[2])
        + weighted(weights[3], v[3])
}

// What the bound falls short of the sum at the ceilings by, in parts of the sum's range.
fn short_of(bound: u64, d: branch_directions::Directions, ranges: plan_sums::Ranges) -> u64 {
    let tops = ranges.tops;
    let slacks = ranges.slacks;
    let short = sum_of(d, tops).saturating_sub(bound.min(MOST_COST));
    (short << 16) / sum_of(d, slacks).max(1)
}

// The shares that were tried are the best where their bound falls short by less.
fn with_short(t: Trial, short: u64) -> Trial {
    if t.short <= short {
        return t;
    }
    let best = t.shares;
    Trial { best, short, ..t }
}

// How far a cost lies from the largest one below the ceiling, in parts of the slack. Only an objective of the problem
// has a slack.
fn far_of(cost: u64, top: u64, slack: u64) -> u64 {
    let far = cost.min(MOST_COST).abs_diff(top.min(MOST_COST));
    (far << 10).checked_div(slack).unwrap_or(0)
}

// The same for each objective.
fn all_far(v: [u64; 4], ranges: plan_sums::Ranges) -> [u64; 4] {
    let tops = ranges.tops;
    let slacks = ranges.slacks;
    std::array::from_fn(|j| far_of(v[j], tops[j], slacks[j]))
}

// The largest of four numbers, at least 1.
fn most_of(v: [u64; 4]) -> u64
    ensures { 1 ≤ result }
{
    v[0].max(v[1]).max(v[2]).max(v[3]).max(1)
}

// By how many parts of 64 a share changes: by the whole step where the cost lies farthest.
fn change_of(step: u64, far: u64, farthest: u64) -> u64
    requires { 1 ≤ farthest }
{
    step.min(FIRST_STEP) * far.min(MOST_FAR) / farthest
}

// A share that grows by so many parts of 64 where the cost is too large, and shrinks so where it is not.
fn changed(share: u64, is_above: bool, change: u64) -> u64 {
    let old = share.min(MOST_SHARE);
    let parts = 64 + change.min(FIRST_STEP);
    if is_above {
        return old * parts / 64;
    }
    old * 64 / parts
}

// A share where the largest one is `most`. One that is not there stays so.
fn scaled(share: u64, most: u64) -> u64
    requires { 1 ≤ most }
{
    if share == 0 {
        return 0;
    }
    (share.min(MOST_TOP) * MOST_SHARE / most).max(LEAST_SHARE)
}

// Shares in these proportions, the largest of which is the largest that there is.
fn all_scaled(v: [u64; 4]) -> [u64; 4] {
    let most = most_of(v);
    v.map(|share| scaled(share, most))
}

// The shares to try next, by what the choice costs that was followed with the last ones.
fn next_shares(t: Trial, v: [u64; 4], ranges: plan_sums::Ranges) -> [u64; 4] {
    let step = t.step;
    let old = t.best;
    let tops = ranges.tops;
    let far = all_far(v, ranges);
    let most = most_of(far);
    all_scaled(std::array::from_fn(|j| {
        changed(old[j], tops[j] < v[j], change_of(step, far[j], most))
    }))
}

// One round.
fn try_shares(
    s: &[u8],
    sizes: &[u8],
    task: groups::Task,
    ranges: plan_sums::Ranges,
    order: plan_order::Order,
    t: Trial,
    plan: &mut [u32],
) -> Trial
    requires { Adaptable task sizes.now s.now plan.old }
    ensures { Reordered task.records sizes.now s.now plan.old
        plan.new }
{
    let r = task.records;
    let tried = t.shares;
    let d = one_sum(task.objectives, tried, ranges);
    let making = plan_making::Making { order, wide: false };
    plan_making::make_plan(s, sizes, r, d, making, plan);
    let bound = root_bound(s, sizes, r, d, plan);
    let x = follow(s, sizes, r, d, plan);
    let v = costs_of(s, sizes, r, x, d, plan);
    let known = with_short(t, short_of(bound, d, ranges));
    let shares = next_shares(known, v, ranges);
    let best = known.best;
    Trial {
        shares,
        best,
        short: known.short,
        step: known.step.min(FIRST_STEP) * 3 / 4,
    }
}

// Shares of the objectives in a sum by slacks. They are found by plans with the records whose places are the first
// numbers; what is left of these plans is of no use, and the caller plans again.
pub fn adapted_shares(
    s: &[u8],
    sizes: &[u8],
    task: groups::Task,
    ranges: plan_sums::Ranges,
    order: plan_order::Order,
    plan: &mut [u32],
) -> [u64; 4]
    requires { Adaptable task sizes.now s.now plan.old }
    ensures { Reordered task.records sizes.now s.now plan.old
        plan.new }
{
    let equal = equal_shares(task.objectives);
    let mut t = Trial {
        shares: equal,
        best: equal,
        short: NO_SHORT,
        step: FIRST_STEP,
    };
    for _ in 0..ROUNDS {
        t = try_shares(s, sizes, task, ranges, order, t, plan);
    }
    t.best
}
