// What is known of each objective's costs before the search: its tables' least and largest entries, added up.
#![tactic(auto)]

ghost use Rattle.std.specs.Prelude.{◌≡◌, ◌<◌, ◌≤◌, length, take};
ghost use Rattle.model.specs.Basics.{All};
ghost use Rattle.model.specs.Limits.{max_tables};
ghost use Rattle.model.specs.Problems.{DomainSize};
ghost use Rattle.model.specs.Core.{entry_end};
ghost use Rattle.problem.specs.Records.{Whole};
ghost use Rattle.costs.specs.Entries.{table_at};
ghost use Rattle.plan_spreads.specs.LargestCosts.{largest_under, Reaches};
ghost use Rattle.plan_spreads.specs.Ceilings.{FittedTo, Fitted};

// For each objective the sum over its records of the least, and of the largest, entry below the ceiling.
#[derive(Clone, Copy)]
pub struct Extents {
    pub lows: [u64; 4],
    pub mosts: [u64; 4],
}

// The least and the largest entry of a record.
#[derive(Clone, Copy)]
struct Extent {
    low: u64,
    most: u64,
}

// The least and the largest entry of the record at `at` that is below the ceiling; zeros where none is.
fn extent_at(s: &[u8], at: usize, sizes: &[u8], ceiling: u64) -> Extent
    requires { Whole sizes.now s.now at × All DomainSize sizes.now }
    ensures { (result.most ≡ largest_under ceiling (table_at sizes.now s.now at).costs)
        × (result.most < entry_end) }
{
    let count = costs::entries_of(s, at, sizes);
    let mut low = ceiling;
    let mut most: u64 = 0;
    for i in 0..count {
        let cost = costs::table_entry(s, at, i, sizes);
        if cost < ceiling {
            low = low.min(cost);
            most = most.max(cost);
        }
    }
    if most < low {
        return Extent { low: 0, most: 0 };
    }
    Extent { low, most }
}

// What each objective costs at least and at most by its tables alone; entries from the ceiling on do not count.
pub fn extents_of(s: &[u8], sizes: &[u8], r: usize, ceilings: [u64; 4], places: &[u32]) -> Extents
    requires { All DomainSize sizes.now × (r ≤ max_tables) × (r ≤ length places.now)
        × All (Whole sizes.now s.now) (take r places.now) }
    ensures { Reaches sizes.now s.now (take r places.now) ceilings
        result.mosts }
{
    let mut lows = [0u64; 4];
    let mut mosts = [0u64; 4];
    for &place in &places[..r] {
        let at = place as usize;
        let t = problem::record_at(s, at, sizes);
        let o = t.objective as usize;
        let extent = extent_at(s, at, sizes, ceilings[o]);
        lows[o] = lows[o].wrapping_add(extent.low);
        mosts[o] += extent.most;
    }
    Extents { lows, mosts }
}

// A ceiling of the same choices, for sums that are at most `most` where they are below it. The numbers of the second
// form have four bytes: where a ceiling is one more than they can be, a forbidden entry would not be told from a sum.
fn fitted(ceiling: u64, most: u64) -> u64
    ensures { FittedTo ceiling most result }
{
    if ceiling == 4294967296 && most < 4294967295 {
        4294967295
    } else {
        ceiling
    }
}

// Such ceilings for all objectives.
pub fn fitted_ceilings(ceilings: [u64; 4], mosts: [u64; 4]) -> [u64; 4]
    ensures { Fitted ceilings mosts result }
{
    std::array::from_fn(|o| fitted(ceilings[o], mosts[o]))
}
