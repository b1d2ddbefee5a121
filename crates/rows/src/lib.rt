// The listed points in work memory: storing one, reading one, and which of two choices is earlier.
#![tactic(auto)]

ghost use Rattle.std.specs.Prelude.{◌≡◌, ◌+◌, ◌*◌, ◌/◌, ◌%◌, ◌≤◌, length, take};
ghost use Rattle.model.specs.Limits.{max_objectives, max_variables, max_points};
ghost use Rattle.model.specs.Vectors.{earlier};
ghost use Rattle.model.specs.Frontiers.{point};
ghost use Rattle.model.specs.Calls.{padded};
ghost use Rattle.layout.specs.Layout.{list_end, row_width};
ghost use Rattle.rows.specs.Rows.{row_at, cost_at, costs_in, values_in};
ghost use Rattle.rows.specs.Rows.{CostsWritten, ValuesWritten, RowWritten};

// Writes the first `p` costs and zeros, and the 24 values, to row `k`.
pub fn store_point(costs: [u64; 4], choice: [u8; 24], p: usize, k: usize, work: &mut [u32])
    requires { (list_end ≤ length work.old) × (k ≤ max_points) × (p ≤ max_objectives) }
    ensures { RowWritten work.old k (point (padded max_objectives (take p costs)) choice)
        work.new }
{
    let at = layout::LIST_AT + layout::ROW_WIDTH * k;
    store_costs(costs, p, at, work);
    store_choice(choice, at + 8, work);
}

// The costs of a row that starts at `at`: two numbers each, the low one first.
fn store_costs(costs: [u64; 4], p: usize, at: usize, work: &mut [u32])
    requires { (at + 8 ≤ length work.old) × (p ≤ max_objectives) }
    ensures { CostsWritten at (padded max_objectives (take p costs)) work.old work.new }
{
    for i in 0..4 {
        let cost = if i < p { costs[i] } else { 0 };
        work[at + 2 * i] = (cost % 4294967296) as u32;
        work[at + 2 * i + 1] = (cost / 4294967296) as u32;
    }
}

// The 24 values of a row, from `at` on: a byte each, four to a number.
fn store_choice(choice: [u8; 24], at: usize, work: &mut [u32])
    requires { at + 6 ≤ length work.old }
    ensures { ValuesWritten at choice work.old work.new }
{
    for k in 0..6 {
        let v = 4 * k;
        work[at + k] = u32::from_le_bytes([choice[v], choice[v + 1], choice[v + 2], choice[v + 3]]);
    }
}

// The cost that stands at `at`.
#[tactic(auto, unfolding(crate::specs::Rows::cost_at))]
fn cost_at(work: &[u32], at: usize) -> u64
    requires { at + 2 ≤ length work.now }
    ensures { result ≡ cost_at work.now at }
{
    work[at] as u64 + 4294967296 * (work[at + 1] as u64)
}

// The four costs of row `i`.
#[tactic(auto, unfolding(crate::specs::Rows::costs_in, crate::specs::Rows::tabulated))]
pub fn row_costs(i: usize, work: &[u32]) -> [u64; 4]
    requires { row_at i + row_width ≤ length work.now }
    ensures { result ≡ costs_in max_objectives work.now i }
{
    let at = layout::LIST_AT + layout::ROW_WIDTH * i;
    [
        cost_at(work, at),
        cost_at(work, at + 2),
        cost_at(work, at + 4),
        cost_at(work, at + 6),
    ]
}

// The 24 values of row `i`.
pub fn row_choice(i: usize, work: &[u32]) -> [u8; 24]
    requires { row_at i + row_width ≤ length work.now }
    ensures { result ≡ values_in max_variables work.now i }
{
    let at = layout::LIST_AT + layout::ROW_WIDTH * i + 8;
    // Number by number, since a loop over the six is slower.
    let [a, b, c, d] = work[at].to_le_bytes();
    let [e, f, g, h] = work[at + 1].to_le_bytes();
    let [i, j, k, l] = work[at + 2].to_le_bytes();
    let [m, n, o, p] = work[at + 3].to_le_bytes();
    let [q, r, s, t] = work[at + 4].to_le_bytes();
    let [u, v, w, x] = work[at + 5].to_le_bytes();
    [
        a, b, c, d, e, f, g, h, i, j, k, l, m, n, o, p, q, r, s, t, u, v, w, x,
    ]
}

// Whether the first of two choices is earlier in its first `n` values.
#[tactic(auto, using(vectors::proofs::ListOrder::front_before))]
pub fn is_earlier_choice(x: [u8; 24], y: [u8; 24], n: usize) -> bool
    requires { n ≤ max_variables }
    ensures { result ≡ earlier (take n x) (take n y) }
{
    x[..n].cmp(&y[..n]).is_lt()
}
