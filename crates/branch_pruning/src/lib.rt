// The tests by which the second form of the search leaves a partial choice: by the limit, by the zones, and by archived
// points that could be replaced.
#![tactic(auto)]

ghost use Rattle.std.specs.Prelude.{◌≡◌, false, ℕ, ◌+◌, ◌<◌, ◌≤◌, length, take, drop};
ghost use Rattle.model.specs.Basics.{All};
ghost use Rattle.model.specs.Limits.{max_variables, max_points};
ghost use Rattle.model.specs.Core.{core_sum_end};
ghost use Rattle.model.specs.Vectors.{at_most};
ghost use Rattle.layout.specs.Layout.{list_end};
ghost use Rattle.rows.specs.Rows.{costs_in, EachCost};
ghost use Rattle.branch_directions.specs.Directions.{sums_from, Sensible};
ghost use Rattle.branch_candidates.specs.Sifted.{max_rows, list_width, Sifted};
ghost use Rattle.branch_pruning.specs.Tests.{Untied, Surpassed, Full, Reached, reach_width, Searched, Dead};

// With so few zones and points lists of what is reached save nothing: all of them stay candidates.
const FEW: usize = 16;

// How many points and zones there are, and the limit: only vectors with a smaller leading sum are sought. Of partial
// choices `left` may still be opened; at 0 the pass is given up, and `done` says how far it came. Nothing relies on it.
// Of complete choices `meets` may still be met: while that stays, so do points and zones.
#[derive(Clone, Copy)]
pub struct Progress {
    pub points: usize,
    pub zones: usize,
    pub limit: u64,
    pub left: u64,
    pub done: u64,
    pub meets: u64,
}

// The first four numbers: the costs, of a bound in every direction.
pub fn front_of(b: [u64; 8]) -> [u64; 4]
    ensures { result ≡ take 4 b }
{
    [b[0], b[1], b[2], b[3]]
}

// Whether each sum of the bound is at most that of the costs.
fn is_within(b: [u64; 8], costs: [u64; 4], d: branch_directions::Directions) -> bool
    requires { Sensible d × All (λ c. c < core_sum_end) (take d.objectives costs) }
    ensures { result
        ≡ at_most (take d.sums (drop d.objectives b)) (sums_from d d.sums 0 (take d.objectives costs)) }
{
    let p = d.objectives;
    let sums = branch_directions::sums_of(costs, d);
    vectors::is_at_most(&b[p..], &sums, d.sums)
}

// Whether a completion of the choice may have the costs of the archived point in row `i`, and be earlier.
fn is_tied_at(
    i: usize,
    x: [u8; 24],
    b: [u64; 8],
    n: usize,
    d: branch_directions::Directions,
    work: &[u32],
) -> bool
    requires { Sensible d × (list_end ≤ length work.now) × (i ≤ max_points) × (n ≤ max_variables)
        × All (λ a. a < core_sum_end) (costs_in d.objectives work.now i) }
    ensures { result ≡ false → Untied d n work.now x b i }
{
    let costs = rows::row_costs(i, work);
    if !vectors::is_at_most(&b, &costs, d.objectives) {
        return false;
    }
    if !branch_archive::is_earlier_at(x, i, n, work) {
        return false;
    }
    is_within(b, costs, d)
}

// The same of the first `c` rows. Only candidates are looked at.
fn is_tied(
    x: [u8; 24],
    b: [u64; 8],
    from: &[u8],
    c: usize,
    n: usize,
    d: branch_directions::Directions,
    work: &[u32],
) -> bool
    requires { Sensible d × (list_end ≤ length work.now) × (c ≤ max_points + 1) × (n ≤ max_variables)
        × EachCost (λ a. a < core_sum_end) d.objectives work.now c
        × Sifted c (Surpassed d work.now b) from.now }
    ensures { result ≡ false → (i : ℕ) → i < c → Untied d n work.now x b i }
{
    let count = from[branch_candidates::MAX_ROWS] as usize;
    for j in 0..count {
        if is_tied_at(from[j] as usize, x, b, n, d, work) {
            return true;
        }
    }
    false
}

// Whether the costs of the archived point in row `i` are at least the bound, in every direction.
fn is_above_at(i: usize, b: [u64; 8], d: branch_directions::Directions, work: &[u32]) -> bool
    requires { Sensible d × (list_end ≤ length work.now) × (i ≤ max_points)
        × All (λ a. a < core_sum_end) (costs_in d.objectives work.now i) }
    ensures { result ≡ false → Surpassed d work.now b i }
{
    let costs = rows::row_costs(i, work);
    if !vectors::is_at_most(&b, &costs, d.objectives) {
        return false;
    }
    is_within(b, costs, d)
}

// Lists those of the candidates whose costs are at least the bound.
fn points_above(
    b: [u64; 8],
    from: &[u8],
    c: usize,
    d: branch_directions::Directions,
    work: &[u32],
    to: &mut [u8],
)
    requires { Sensible d × (list_end ≤ length work.now) × (c ≤ max_points + 1)
        × EachCost (λ a. a < core_sum_end) d.objectives work.now c
        × Sifted c (Surpassed d work.now b) from.now × (length to.old ≡ list_width) }
    ensures { Sifted c (Surpassed d work.now b) to.new }
{
    let count = from[branch_candidates::MAX_ROWS] as usize;
    let mut kept: usize = 0;
    for j in 0..count {
        let i = from[j];
        if is_above_at(i as usize, b, d, work) {
            to[kept] = i;
            kept += 1;
        }
    }
    to[branch_candidates::MAX_ROWS] = kept as u8;
}

// What may be reached stands in so many bytes: the list of the zones, and behind it that of the archived points.
pub const REACH_WIDTH: usize = 258;

// Nothing is left out.
pub fn full_reach(run: Progress, to: &mut [u8])
    requires { (run.zones ≤ max_rows) × (run.points ≤ max_rows) × (length to.old ≡ reach_width) }
    ensures { Full run to.new }
{
    branch_candidates::all_rows(run.zones, &mut to[..branch_candidates::LIST_WIDTH]);
    branch_candidates::all_rows(run.points, &mut to[branch_candidates::LIST_WIDTH..]);
}

// Whether there are so few zones and points that lists save nothing.
fn has_few(run: Progress) -> bool
    requires { (run.zones ≤ max_rows) × (run.points ≤ max_rows) }
{
    run.zones + run.points <= FEW
}

// Lists what a partial choice with this bound may reach, of what one that it extends may reach.
fn sift(
    b: [u64; 8],
    from: &[u8],
    run: Progress,
    d: branch_directions::Directions,
    work: &[u32],
    to: &mut [u8],
)
    requires { Searched d work.now run × Reached d work.now run b from.now
        × (length to.old ≡ reach_width) }
    ensures { Reached d work.now run b to.new }
{
    branch_zones::reached_zones(
        b,
        &from[..branch_candidates::LIST_WIDTH],
        run.zones,
        d,
        &work[..layout::ZONES_END],
        &mut to[..branch_candidates::LIST_WIDTH],
    );
    points_above(
        b,
        &from[branch_candidates::LIST_WIDTH..],
        run.points,
        d,
        work,
        &mut to[branch_candidates::LIST_WIDTH..],
    );
}

// The same, but that all stay candidates where there are few.
pub fn reach_of(
    b: [u64; 8],
    from: &[u8],
    run: Progress,
    d: branch_directions::Directions,
    work: &[u32],
    to: &mut [u8],
)
    requires { Searched d work.now run × Reached d work.now run b from.now
        × (length to.old ≡ reach_width) }
    ensures { Reached d work.now run b to.new }
{
    if has_few(run) {
        full_reach(run, to);
        return;
    }
    sift(b, from, run, d, work, to);
}

// What a partial choice with this bound may reach, of all.
pub fn reach_anew(
    b: [u64; 8],
    run: Progress,
    d: branch_directions::Directions,
    work: &[u32],
    to: &mut [u8],
)
    requires { Searched d work.now run × (length to.old ≡ reach_width) }
    ensures { Reached d work.now run b to.new }
{
    if has_few(run) {
        full_reach(run, to);
        return;
    }
    let mut all = [0u8; REACH_WIDTH];
    full_reach(run, &mut all);
    sift(b, &all, run, d, work, to);
}

// Whether completions of a choice with this bound may be new, or earlier than an archived choice with equal costs.
// Only what it may reach is looked at.
pub fn is_alive(
    x: [u8; 24],
    b: [u64; 8],
    reach: &[u8],
    run: Progress,
    n: usize,
    d: branch_directions::Directions,
    work: &[u32],
) -> bool
    requires { Searched d work.now run × (n ≤ max_variables)
        × Reached d work.now run b reach.now }
    ensures { result ≡ false → Dead d n work.now run x b }
{
    if branch_directions::lead_of(b, d) >= run.limit {
        return false;
    }
    if branch_zones::is_reached(
        b,
        &reach[..branch_candidates::LIST_WIDTH],
        run.zones,
        d,
        &work[..layout::ZONES_END],
    ) {
        return true;
    }
    is_tied(
        x,
        b,
        &reach[branch_candidates::LIST_WIDTH..],
        run.points,
        n,
        d,
        work,
    )
}
