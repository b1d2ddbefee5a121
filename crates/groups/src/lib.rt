// Records grouped by variable in work memory, so that a value looks only at the records that its variable touches.
#![tactic(auto)]

ghost use Rattle.std.specs.Prelude.{◌≡◌, ◌⊎◌, true, ◌++◌, ◌+◌, ◌-◌, ◌<◌, ◌≤◌, length, take, drop};
ghost use Rattle.model.specs.Basics.{All};
ghost use Rattle.model.specs.Limits.{max_tables, max_objectives};
ghost use Rattle.model.specs.Problems.{DomainSize};
ghost use Rattle.model.specs.Costs.{totals_from};
ghost use Rattle.model.specs.Bounds.{prefix_ok, least_of};
ghost use Rattle.problem.specs.Records.{Whole};
ghost use Rattle.layout.specs.Layout.{groups_at, records_at};
ghost use Rattle.groups.specs.Groups.{group_of, tables_over, places_in, Placed, Grouped};

// What is searched: so many records placed in work memory, so many objectives, their ceilings, and how many points
// there is room for.
#[derive(Clone, Copy)]
pub struct Task {
    pub records: usize,
    pub objectives: usize,
    pub ceilings: [u64; 4],
    pub room: usize,
}

// Writes the group of variable `v` from `from` on, and answers where it ends. `sizes` are the domain sizes.
pub fn add_group(s: &[u8], sizes: &[u8], r: usize, v: usize, from: usize, work: &mut [u32]) -> usize
    requires { Placed sizes.now s.now work.old r × (groups_at ≤ from)
        × (from + length (group_of s.now v (places_in work.old r)) ≤ records_at) }
    ensures { (result ≡ from + length (group_of s.now v (places_in work.old r)))
        × (work.new
        ≡ take from work.old ++ group_of s.now v (places_in work.old r)
        ++ drop result work.old) }
{
    let mut end = from;
    for i in 0..r {
        let at = work[layout::RECORDS_AT + i];
        if problem::has_variable(s, at as usize, v) {
            work[end] = at;
            end += 1;
        }
    }
    end
}

// Groups `r` accepted records, whose places are in work memory, by the variables of `sizes`.
pub fn group_records(s: &[u8], sizes: &[u8], r: usize, work: &mut [u32])
    requires { Placed sizes.now s.now work.old r }
    ensures { Grouped sizes.now s.now work.new r
        × (drop records_at work.new ≡ drop records_at work.old)
        × (length work.new ≡ length work.old) }
{
    let n = sizes.len();
    let mut end: usize = layout::GROUPS_AT;
    for v in 0..n {
        work[v] = end as u32;
        end = add_group(s, sizes, r, v, end, work);
    }
    work[n] = end as u32;
}

// The sums of least entries that agree with the prefix, over the records whose places stand in work memory
// at `from` .. `to`.
pub fn bounds_over(
    s: &[u8],
    sizes: &[u8],
    from: usize,
    to: usize,
    prefix: &[u8],
    work: &[u32],
) -> [u64; 4]
    requires { All DomainSize sizes.now × (from ≤ to) × (to ≤ length work.now) × (to - from ≤ max_tables)
        × All (Whole sizes.now s.now) (take (to - from) (drop from work.now))
        × (prefix_ok sizes.now prefix.now ≡ true) }
    ensures { result ≡ totals_from max_objectives 0 (least_of sizes.now prefix.now)
        (tables_over sizes.now s.now (take (to - from) (drop from work.now))) }
{
    let mut sums = [0u64; 4];
    for i in from..to {
        let at = work[i] as usize;
        let o = problem::objective_at(s, at);
        sums[o] += costs::least_at(s, at, sizes, prefix);
    }
    sums
}

// The sums of least entries that agree with the prefix, over the group of variable `v`.
pub fn group_bounds(
    s: &[u8],
    sizes: &[u8],
    r: usize,
    v: usize,
    prefix: &[u8],
    work: &[u32],
) -> [u64; 4]
    requires { Grouped sizes.now s.now work.now r × (v < length sizes.now)
        × (prefix_ok sizes.now prefix.now ≡ true) }
    ensures { result ≡ totals_from max_objectives 0 (least_of sizes.now prefix.now)
        (tables_over sizes.now s.now
        (group_of s.now v (places_in work.now r))) }
{
    let from = work[v] as usize;
    let to = work[v + 1] as usize;
    bounds_over(s, sizes, from, to, prefix, work)
}

// Copies `count` numbers of work memory from `from` on to the place `to`. The two parts do not overlap.
pub fn copy_numbers(from: usize, to: usize, count: usize, work: &mut [u32])
    requires { (from + count ≤ length work.old) × (to + count ≤ length work.old)
        × ((from + count ≤ to) ⊎ (to + count ≤ from)) }
    ensures { work.new
        ≡ take to work.old ++ take count (drop from work.old)
        ++ drop (to + count) work.old }
{
    work.copy_within(from..from + count, to);
}
