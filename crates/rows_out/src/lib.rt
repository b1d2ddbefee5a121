// The listed points copied out of work memory, flat or as records; how many points the lent buffers hold, and clearing.
#![tactic(auto)]

ghost use Rattle.std.specs.Prelude.{◌≡◌, ◌++◌, length, take, drop, replicate};
ghost use Prim.Native.Nat.{◌+◌, ◌*◌, ◌<◌, ◌≤◌};
ghost use Rattle.model.specs.Basics.{All};
ghost use Rattle.model.specs.Limits.{max_objectives, max_variables, max_points};
ghost use Rattle.model.specs.Problems.{Word};
ghost use Rattle.model.specs.Calls.{over, divided, flat_costs, flat_choices};
ghost use Rattle.layout.specs.Layout.{list_end};
ghost use Rattle.rows.specs.Rows.{point_in, list_in};
ghost use Rattle.rows_out.specs.Records.{record_of, records_of, WordCosts, RowsHold};

// Copies the costs of the first `k` rows out, `p` for each. They leave as 32-bit numbers.
pub fn copy_costs(work: &[u32], k: usize, n: usize, p: usize, costs: &mut [u32])
    requires { (list_end ≤ length work.now) × (k ≤ max_points) × (p ≤ max_objectives)
        × (k * p ≤ length costs.old) × All WordCosts (list_in p n work.now 0 k) }
    ensures { costs.new ≡ over (flat_costs (list_in p n work.now 0 k)) costs.old }
{
    for row in 0..k {
        put_costs(rows::row_costs(row, work), p, costs, row * p);
    }
}

// Writes the first `count` of a row's costs to the place `to` of the cost buffer.
fn put_costs(row: [u64; 4], count: usize, costs: &mut [u32], to: usize)
    requires { (count ≤ max_objectives) × (to + count ≤ length costs.old) × All Word (take count row) }
    ensures { costs.new
        ≡ take to costs.old ++ take count row ++ drop (to + count) costs.old }
{
    for i in 0..count {
        costs[to + i] = row[i] as u32;
    }
}

// Copies the choices of the first `k` rows out, `n` values for each.
pub fn copy_choices(work: &[u32], k: usize, n: usize, p: usize, choices: &mut [u8])
    requires { (list_end ≤ length work.now) × (k ≤ max_points) × (n ≤ max_variables)
        × (k * n ≤ length choices.old) }
    ensures { choices.new
        ≡ over (flat_choices (list_in p n work.now 0 k)) choices.old }
{
    for row in 0..k {
        put_choice(rows::row_choice(row, work), n, choices, row * n);
    }
}

// Writes the first `count` of a row's values to the place `to` of the choice buffer.
fn put_choice(row: [u8; 24], count: usize, choices: &mut [u8], to: usize)
    requires { (count ≤ max_variables) × (to + count ≤ length choices.old) }
    ensures { choices.new
        ≡ take to choices.old ++ take count row ++ drop (to + count) choices.old }
{
    choices[to..to + count].copy_from_slice(&row[..count]);
}

// The point in row `row` as a record: its first `p` costs, its first `n` values, and zeros.
pub fn point_at(work: &[u32], row: usize, n: usize, p: usize) -> model::Point
    requires { (list_end ≤ length work.now) × (row < max_points) × (n ≤ max_variables) × (p ≤ max_objectives)
        × WordCosts (point_in p n work.now row) }
    ensures { result ≡ record_of (point_in p n work.now row) }
{
    let mut costs = [0u32; 4];
    let mut choice = [0u8; 24];
    put_costs(rows::row_costs(row, work), p, &mut costs, 0);
    put_choice(rows::row_choice(row, work), n, &mut choice, 0);
    model::Point { costs, choice }
}

// Writes the records of the first `k` rows over the start of a list of records.
pub fn copy_points(work: &[u32], k: usize, n: usize, p: usize, points: &mut [model::Point])
    requires { (k ≤ length points.old) × RowsHold p n k work.now }
    ensures { points.new
        ≡ over (records_of (list_in p n work.now 0 k)) points.old }
{
    for row in 0..k {
        points[row] = point_at(work, row, n, p);
    }
}

// Zeros all of work memory.
pub fn clear(work: &mut [u32])
    ensures { work.new ≡ replicate (length work.old) 0 }
{
    work.fill(0);
}

// Room: how many points buffers of these lengths hold, 64 at most.
pub fn room_of(costs: usize, choices: usize, p: usize, n: usize) -> usize
    requires { (1 ≤ p) × (1 ≤ n) }
    ensures { result ≡ Prim.Native.Nat.min (divided costs p) (Prim.Native.Nat.min (divided choices n) max_points) }
{
    (costs / p).min((choices / n).min(model::Point::MAX_COUNT))
}

// Room: how many points a list of so many records holds, 64 at most.
pub fn room_for(records: usize) -> usize
    ensures { result ≡ Prim.Native.Nat.min records max_points }
{
    records.min(model::Point::MAX_COUNT)
}
