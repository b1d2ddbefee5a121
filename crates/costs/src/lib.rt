// Entries of tables and bounds of prefixes, over the accepted records of a problem.
#![tactic(auto)]

ghost use Rattle.std.specs.Prelude.{◌≡◌, true, length, drop};
ghost use Prim.Native.Nat.{ℕ, ◌+◌, ◌-◌, ◌*◌, ◌<◌, ◌≤◌};
ghost use Rattle.model.specs.Basics.{All};
ghost use Rattle.model.specs.Limits.{max_tables, max_objectives};
ghost use Rattle.model.specs.Problems.{DomainSize};
ghost use Rattle.model.specs.Reading.{table_of, tables_at};
ghost use Rattle.model.specs.Costs.{totals_from};
ghost use Rattle.model.specs.Core.{entry_end, entry, plain};
ghost use Rattle.model.specs.Bounds.{prefix_ok, least_to, least_of};
ghost use Rattle.problem.specs.Records.{Whole, AllWhole};
ghost use Rattle.costs.specs.Entries.{table_at, entry_at, number_at, entries_at};
ghost use Rattle.costs.specs.Runs.{least_in, RunsFit, RunsSay};

// What a table's number weighs in the core: itself, but a forbidden entry more than every ceiling.
fn weigh(x: u32) -> u64
    ensures { (result ≡ entry x) × (result < entry_end) }
{
    if x == 4294967295 {
        return 1099511627775;
    }
    u64::from(x)
}

// The number that weighs so much: the way back.
fn unweighed(w: u64) -> u64
    ensures { (result ≡ plain w) × (result ≤ w) }
{
    w.min(4294967295)
}

// The number that stands as entry `i` in the table of the record at `at`: the one place that knows where tables stand.
pub fn number_at(s: &[u8], at: usize, i: usize, sizes: &[u8]) -> u32
    requires { Whole sizes.now s.now at × (i < entries_at sizes.now s.now at) }
    ensures { result ≡ number_at sizes.now s.now at i }
{
    let a = problem::arity_at(s, at);
    problem::four_at(s, at + 4 + a + 4 * i)
}

// Entry `i` of the table of the record at `at`, as the core has it.
pub fn table_entry(s: &[u8], at: usize, i: usize, sizes: &[u8]) -> u64
    requires { Whole sizes.now s.now at × (i < entries_at sizes.now s.now at) }
    ensures { (result ≡ entry_at sizes.now s.now at i) × (result < entry_end) }
{
    weigh(number_at(s, at, i, sizes))
}

// How many entries the table of the record at `at` has.
pub fn entries_of(s: &[u8], at: usize, sizes: &[u8]) -> usize
    requires { Whole sizes.now s.now at × All DomainSize sizes.now }
    ensures { result ≡ entries_at sizes.now s.now at }
{
    let a = problem::arity_at(s, at);
    problem::size_of(s, at + 4, a, sizes)
}

// Whether a prefix is no longer than the domains, each value in its own.
pub fn prefix_ok(sizes: &[u8], prefix: &[u8]) -> bool
    ensures { result ≡ prefix_ok sizes.now prefix.now }
{
    if sizes.len() < prefix.len() {
        return false;
    }
    for i in 0..prefix.len() {
        if sizes[i] <= prefix[i] {
            return false;
        }
    }
    true
}

// The least of `count` numbers in a row, from entry `first` on. It is weighed afterwards, so that a vector has many
// numbers. The loop meets the first again: `count` turns suit vectors.
pub fn least_row(s: &[u8], at: usize, first: usize, count: usize, sizes: &[u8]) -> u32
    requires { Whole sizes.now s.now at × (1 ≤ count) × (first + count ≤ entries_at sizes.now s.now at) }
    ensures { result ≡ least_to (count - 1) (λ a. number_at sizes.now s.now at (first + a)) }
{
    let mut least = number_at(s, at, first, sizes);
    for i in 0..count {
        least = least.min(number_at(s, at, first + i, sizes));
    }
    least
}

// Runs of entries in even steps: `rows` of them, of `count` entries each, `stride` apart, the first from entry `first`
// on.
#[derive(Clone, Copy)]
pub struct Runs {
    pub first: usize,
    pub count: usize,
    pub rows: usize,
    pub stride: usize,
}

// The entries of the record at `at` that agree with the prefix. They are one run where no free variable is written
// before a fixed one, since the variable that is written last runs fastest. A fixed one behind free ones parts them
// into rows, and with three variables that happens once.
pub fn runs_at(s: &[u8], at: usize, sizes: &[u8], prefix: &[u8]) -> Runs
    requires { Whole sizes.now s.now at × All DomainSize sizes.now
        × (prefix_ok sizes.now prefix.now ≡ true) }
    ensures { RunsSay sizes.now prefix.now s.now at result }
{
    let a = problem::arity_at(s, at);
    let mut first: usize = 0;
    let mut count: usize = 1;
    let mut rows: usize = 1;
    let mut stride: usize = 0;
    for k in 0..a {
        let v = problem::scope_at(s, at, k);
        let d = usize::from(sizes[v]);
        first = first * d;
        stride = stride * d;
        if prefix.len() <= v {
            count = count * d;
            continue;
        }
        first = first + usize::from(prefix[v]);
        let is_run = count == 1;
        if is_run {
            continue;
        }
        rows = count;
        stride = d;
        count = 1;
    }
    Runs {
        first,
        count,
        rows,
        stride,
    }
}

// The least of the numbers in runs of entries.
pub fn least_in(s: &[u8], at: usize, runs: Runs, sizes: &[u8]) -> u32
    requires { Whole sizes.now s.now at × RunsFit sizes.now s.now at runs }
    ensures { result ≡ least_in sizes.now s.now at runs }
{
    let count = runs.count;
    let rows = runs.rows;
    let stride = runs.stride;
    let mut here = runs.first;
    let mut least = least_row(s, at, here, count, sizes);
    for _ in 1..rows {
        here += stride;
        least = least.min(least_row(s, at, here, count, sizes));
    }
    least
}

// The least number in the table of the record at `at` that agrees with the prefix.
fn least_number(s: &[u8], at: usize, sizes: &[u8], prefix: &[u8]) -> u32
    requires { Whole sizes.now s.now at × All DomainSize sizes.now
        × (prefix_ok sizes.now prefix.now ≡ true) }
    ensures { result ≡ least_of sizes.now prefix.now
        (table_of sizes.now (drop at s.now)) }
{
    let runs = runs_at(s, at, sizes, prefix);
    least_in(s, at, runs, sizes)
}

// The least entry of the record at `at` that agrees with the prefix: what the least number weighs.
pub fn least_at(s: &[u8], at: usize, sizes: &[u8], prefix: &[u8]) -> u64
    requires { Whole sizes.now s.now at × All DomainSize sizes.now
        × (prefix_ok sizes.now prefix.now ≡ true) }
    ensures { (result ≡ least_of sizes.now prefix.now
        (table_at sizes.now s.now at)) × (result < entry_end) }
{
    weigh(least_number(s, at, sizes, prefix))
}

// The bound of a prefix: the sums of least entries over the tables of the `r` records from `at` on, as they were read.
pub fn bounds_of(s: &[u8], at: usize, r: u32, sizes: &[u8], prefix: &[u8]) -> [u64; 4]
    requires { AllWhole r sizes.now s.now at × (r ≤ max_tables) × All DomainSize sizes.now
        × (prefix_ok sizes.now prefix.now ≡ true) }
    ensures { result ≡ totals_from max_objectives 0 (least_of sizes.now prefix.now)
        (tables_at r sizes.now s.now at) }
{
    let mut sums = [0u64; 4];
    let mut here = at;
    for _ in 0..r {
        let t = problem::record_at(s, here, sizes);
        let owner = usize::from(t.objective);
        sums[owner] = sums[owner] + unweighed(least_at(s, here, sizes, prefix));
        here += t.length;
    }
    sums
}
