// The bounds of a partial choice with each value of its next variable, by a plan, and the value to try next.
#![tactic(auto)]

ghost use Rattle.std.specs.Prelude.{◌≡◌, true, ℕ, ◌<◌, ◌≤◌, length, get_or, replicate};
ghost use Rattle.model.specs.Limits.{max_domain};
ghost use Rattle.model.specs.Costs.{is_choice};
ghost use Rattle.branch_directions.specs.Directions.{width_of, lead_at, Sensible, max_directions};
ghost use Rattle.layout.specs.Places.{numbers_at, record_end};
ghost use Rattle.branch_buckets.specs.Bounds.{span_at, base_at};
ghost use Rattle.branch_buckets.specs.Content.{Planned, Ranged};
ghost use Rattle.branch_buckets.specs.Sound.{Tested};
ghost use Rattle.branch_values.specs.Rows.{Holding, next_bound, Bucket, Away};

// What the bucket of position `k` holds, for each value of its variable `v`.
pub fn bucket_at(
    k: usize,
    v: usize,
    x: &[u8],
    s: &[u8],
    sizes: &[u8],
    d: branch_directions::Directions,
    plan: &[u32],
) -> [u64; 64]
    requires { Planned d (record_end plan.now k) sizes.now s.now plan.now × Ranged (span_at plan.now k)
        × (numbers_at ≤ length plan.now) × (k < length sizes.now) × (v < length sizes.now)
        × (is_choice sizes.now x.now ≡ true) }
    ensures { Bucket d sizes.now s.now plan.now k v x.now result }
{
    branch_buckets::content(s, sizes, branch_buckets::span_at(k, plan), v, x, d, plan)
}

// What position `k` has sent on ahead.
pub fn away_at(
    k: usize,
    x: &[u8],
    s: &[u8],
    sizes: &[u8],
    r: usize,
    d: branch_directions::Directions,
    plan: &[u32],
) -> [u64; 8]
    requires { Planned d r sizes.now s.now plan.now × Tested d r sizes.now s.now plan.now
        × (numbers_at ≤ length plan.now) × (k < length sizes.now) }
    ensures { Away d plan.now k x.now result }
{
    let next = k + 1;
    let from = plan[layout::MESSAGE_ENDS_AT + next] as usize;
    let to = plan[layout::MESSAGE_ENDS_AT + k] as usize;
    branch_buckets::sent(from, to, x, d.objectives + d.sums, plan)
}

// The bound with value `a`, in the first `w` directions. Always eight rounds, so that all numbers stay in registers.
pub fn row_of(rows: &[u64; 64], a: usize, acc: [u64; 8], away: [u64; 8], w: usize) -> [u64; 8]
    requires { (a < max_domain) × (w ≤ max_directions) × Holding w acc away rows.now a }
    ensures { (length result ≡ max_directions)
        × ((j : ℕ) → j < w → get_or result j 0 ≡ next_bound acc away rows.now a j) }
{
    let at = 8 * a;
    let mut b = [0u64; 8];
    for j in 0..8 {
        if j < w {
            b[j] = acc[j] + (rows[at + j] - away[j]);
        }
    }
    b
}

// The leading sum of the bound with each of `size` values.
pub fn leads_of(
    rows: &[u64; 64],
    acc: [u64; 8],
    away: [u64; 8],
    size: usize,
    d: branch_directions::Directions,
) -> [u64; 8]
    requires { Sensible d × (size ≤ max_domain) × ((a : ℕ) → a < size → Holding (width_of d) acc away rows.now a) }
    ensures { (length result ≡ max_domain)
        × ((a : ℕ) → a < size → get_or result a 0 ≡ next_bound acc away rows.now a (lead_at d)) }
{
    let lead = branch_directions::lead_at(d);
    let mut leads = [0u64; 8];
    for a in 0..size {
        leads[a] = acc[lead] + (rows[8 * a + lead] - away[lead]);
    }
    leads
}

// The first of `size` values with the least lead.
pub fn least_value(leads: &[u64; 8], size: usize) -> usize
    requires { (1 ≤ size) × (size ≤ max_domain) }
    ensures { (result < size)
        × ((b : ℕ) → b < size → get_or leads.now result 0 ≤ get_or leads.now b 0) }
{
    let mut least: usize = 0;
    for a in 1..size {
        if leads[a] < leads[least] {
            least = a;
        }
    }
    least
}

// The bound of every choice: what no variable decides.
pub fn root_bound(
    s: &[u8],
    sizes: &[u8],
    r: usize,
    d: branch_directions::Directions,
    plan: &[u32],
) -> [u64; 8]
    requires { Planned d r sizes.now s.now plan.now × Tested d r sizes.now s.now plan.now
        × (numbers_at ≤ length plan.now) × (1 ≤ length sizes.now) }
    ensures { (j : ℕ) → j < width_of d
        → get_or result j 0 ≡ base_at d sizes.now s.now plan.now r
        (replicate (length sizes.now) 0) j }
{
    let zeros = [0u8; 24];
    let n = sizes.len();
    let from = plan[layout::RECORD_ENDS_AT] as usize;
    let first = plan[layout::CHILD_ENDS_AT] as usize;
    let last = plan[layout::MESSAGE_ENDS_AT] as usize;
    let span = branch_buckets::Span {
        from,
        to: r,
        first,
        last,
    };
    let rows = branch_buckets::content(s, sizes, span, 0, &zeros[..n], d, plan);
    row_of(&rows, 0, [0u64; 8], [0u64; 8], d.objectives + d.sums)
}
