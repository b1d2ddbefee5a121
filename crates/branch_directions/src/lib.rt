// Directions of the second form of the search: the objectives and weighted sums of them, and a vector in all of them.
#![tactic(auto)]

ghost use Rattle.std.specs.Prelude.{◌≡◌, ℕ, ◌*◌, ◌<◌, ◌≤◌, get_or, take, drop};
ghost use Rattle.model.specs.Basics.{All};
ghost use Rattle.model.specs.Limits.{max_objectives};
ghost use Rattle.model.specs.Core.{core_sum_end};
ghost use Rattle.model.specs.Calls.{padded};
ghost use Rattle.model.specs.Archive.{weighted};
ghost use Rattle.branch_archive.specs.Changes.{max_weight};
ghost use Rattle.branch_directions.specs.Directions.{max_sums, max_directions, weights_of, sums_from, directions_of};
ghost use Rattle.branch_directions.specs.Directions.{lead_weights, lead_at, Sensible};
ghost use Rattle.branch_directions.specs.Shares.{max_share, max_range};

// What a rate is scaled by; with the largest share it does not wrap.
const RATE_SCALE: u64 = 17592186044416;

// The rate that is worth a weight of 1, unless a weight gets too large: that of a share of 4,096 in a range of 2^24, so
// that most sums fit the 32 bits in which corners of zones and messages keep them.
const RATE_UNIT: u64 = 4294967296;

// A larger share counts as this one.
const MAX_SHARE: u64 = 65536;

// A larger range counts as this one. No sum of entries reaches it.
const MAX_RANGE: u64 = 1099511627776;

// So many objectives, so many sums, and four weights for each sum. The first sum leads.
#[derive(Clone, Copy)]
pub struct Directions {
    pub objectives: usize,
    pub sums: usize,
    pub weights: [u64; 16],
}

// What the weights of up to four sums are made from, four numbers in a row: the share of each objective in each sum,
// and the range that it is divided by. There are `count` sums.
#[derive(Clone, Copy)]
pub struct Sums {
    pub shares: [u64; 16],
    pub ranges: [u64; 16],
    pub count: usize,
}

// The first `p` costs of `v`, and zeros.
fn with_costs(v: [u64; 4], p: usize) -> [u64; 8]
    requires { p ≤ max_objectives }
    ensures { result ≡ padded max_directions (take p v) }
{
    let mut all = [0u64; 8];
    all[..p].copy_from_slice(&v[..p]);
    all
}

// Row `i` of a table with four numbers in a row.
fn row_of(table: [u64; 16], i: usize) -> [u64; 4]
    requires { i < max_sums }
    ensures { result ≡ take 4 (drop (4 * i) table) }
{
    let mut row = [0u64; 4];
    row.copy_from_slice(&table[4 * i..4 * i + 4]);
    row
}

// The first costs of `v`, weighted with row `i` of the weights: sum `i`, where there are so many.
fn sum_at(v: [u64; 4], i: usize, d: Directions) -> u64
    requires { Sensible d × (i < max_sums) × All (λ c. c < core_sum_end) (take d.objectives v) }
    ensures { result ≡ weighted (weights_of d i) (take d.objectives v) }
{
    let weights = d.weights;
    branch_archive::sum_of(v, row_of(weights, i), d.objectives)
}

// The sums of the first costs of `v`. Always four, of which as many count as there are sums.
pub fn sums_of(v: [u64; 4], d: Directions) -> [u64; 4]
    requires { Sensible d × All (λ c. c < core_sum_end) (take d.objectives v) }
    ensures { result ≡ sums_from d max_sums 0 (take d.objectives v) }
{
    [
        sum_at(v, 0, d),
        sum_at(v, 1, d),
        sum_at(v, 2, d),
        sum_at(v, 3, d),
    ]
}

// The first costs of `v` in every direction, and zeros.
pub fn directions_of(v: [u64; 4], d: Directions) -> [u64; 8]
    requires { Sensible d × All (λ c. c < core_sum_end) (take d.objectives v) }
    ensures { result ≡ padded max_directions (directions_of d (take d.objectives v)) }
{
    let p = d.objectives;
    let mut all = with_costs(v, p);
    for i in 0..d.sums {
        all[p + i] = sum_at(v, i, d);
    }
    all
}

// Which direction leads.
pub fn lead_at(d: Directions) -> usize
    ensures { result ≡ lead_at d }
{
    if d.sums == 0 { 0 } else { d.objectives }
}

// The leading sum of a vector that is given in every direction.
pub fn lead_of(b: [u64; 8], d: Directions) -> u64
    requires { Sensible d }
    ensures { result ≡ get_or b (lead_at d) 0 }
{
    b[lead_at(d)]
}

// The weights of the leading sum.
pub fn lead_weights(d: Directions) -> [u64; 4]
    requires { Sensible d }
    ensures { (take d.objectives result ≡ lead_weights d) × All (λ w. w ≤ max_weight) result }
{
    let weights = d.weights;
    row_of(weights, 0)
}

// The least share that an objective has in sum `i`. The first sum leads, so it leaves none out.
fn least_share(i: usize) -> u64
    ensures { (result ≤ max_share) × (i ≡ 0 → 1 ≤ result) }
{
    if i == 0 { 1 } else { 0 }
}

// The shares of the objectives in sum `i`, as far as they count.
fn shares_at(sums: Sums, i: usize) -> [u64; 4]
    requires { i < max_sums }
    ensures { All (λ s. s ≤ max_share) result × (i ≡ 0 → All (λ s. 1 ≤ s) result) }
{
    let shares = sums.shares;
    let row = row_of(shares, i);
    let least = least_share(i);
    [
        row[0].clamp(least, MAX_SHARE),
        row[1].clamp(least, MAX_SHARE),
        row[2].clamp(least, MAX_SHARE),
        row[3].clamp(least, MAX_SHARE),
    ]
}

// What a share is divided by: at least 1. Where an objective's costs are not apart at all its weight does not matter,
// and it counts as the largest range, so that the others' weights stay large.
fn range_of(range: u64) -> u64
    ensures { (1 ≤ result) × (result ≤ max_range) }
{
    if range == 0 {
        return MAX_RANGE;
    }
    range.min(MAX_RANGE)
}

// What the weight of an objective is in proportion to: its share, divided by its range.
fn rate_of(share: u64, range: u64) -> u64
    requires { share ≤ max_share }
    ensures { 1 ≤ share → 1 ≤ result }
{
    share * RATE_SCALE / range_of(range)
}

// A weight for a rate: only one that would be 0 is raised to 1.
fn weight_of(rate: u64, unit: u64) -> u64
    requires { 1 ≤ unit }
    ensures { (result ≤ max_weight) × (1 ≤ rate → 1 ≤ result) }
{
    if rate == 0 {
        return 0;
    }
    (rate / unit).clamp(1, branch_archive::MAX_WEIGHT)
}

// The weights of a sum, from the shares of the objectives in it.
// One unit for all keeps their ratios where the largest would be too large.
fn sum_weights(shares: [u64; 4], ranges: [u64; 4]) -> [u64; 4]
    requires { All (λ s. s ≤ max_share) shares }
    ensures { All (λ w. w ≤ max_weight) result
        × ((p : ℕ) → All (λ s. 1 ≤ s) (take p shares) → All (λ w. 1 ≤ w) (take p result)) }
{
    let a = rate_of(shares[0], ranges[0]);
    let b = rate_of(shares[1], ranges[1]);
    let c = rate_of(shares[2], ranges[2]);
    let d = rate_of(shares[3], ranges[3]);
    let most = a.max(b).max(c).max(d);
    let unit = (most / branch_archive::MAX_WEIGHT + 1).max(RATE_UNIT);
    [
        weight_of(a, unit),
        weight_of(b, unit),
        weight_of(c, unit),
        weight_of(d, unit),
    ]
}

// The weights of every sum.
fn weights_for(sums: Sums) -> [u64; 16]
    ensures { All (λ w. w ≤ max_weight) result × All (λ w. 1 ≤ w) (take 4 result) }
{
    let ranges = sums.ranges;
    let mut weights = [0u64; 16];
    for i in 0..4 {
        let row = sum_weights(shares_at(sums, i), row_of(ranges, i));
        weights[4 * i..4 * i + 4].copy_from_slice(&row);
    }
    weights
}

// Directions for `p` objectives with these sums, one to four of them, of which one objective has none. Only the speed
// depends on them.
pub fn choose_directions(p: usize, sums: Sums) -> Directions
    requires { (1 ≤ p) × (p ≤ max_objectives) }
    ensures { Sensible result × (result.objectives ≡ p) }
{
    if p == 1 {
        let one = [1, 0, 0, 0, 0, 0, 0, 0, 0, 0, 0, 0, 0, 0, 0, 0];
        return Directions {
            objectives: p,
            sums: 0,
            weights: one,
        };
    }
    let weights = weights_for(sums);
    Directions {
        objectives: p,
        sums: sums.count.clamp(1, 4),
        weights,
    }
}
