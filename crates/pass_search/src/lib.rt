// One pass in list order: a branch and bound over the tree of partial choices finds the next point.
#![tactic(auto)]

ghost use Rattle.std.specs.Prelude.{◌≡◌, ◌++◌, ◌∷◌, [], ◌+◌, ◌<◌, ◌≤◌, length, get_or, take};
ghost use Rattle.model.specs.Basics.{All};
ghost use Rattle.model.specs.Limits.{max_objectives, max_variables, max_points};
ghost use Rattle.model.specs.Core.{core_sum_end};
ghost use Rattle.model.specs.Vectors.{added};
ghost use Rattle.model.specs.Search.{matched, pass};
ghost use Rattle.layout.specs.Layout.{list_end, search_end};
ghost use Rattle.groups.specs.Groups.{Placed, Grouped};
ghost use Rattle.rows.specs.Rows.{list_in};
ghost use Rattle.pass_search.specs.States.{held_of, problem_in, listed_in, prefix_of, dead_under, gains_in, rule_of};
ghost use Rattle.pass_search.specs.States.{Setting, Stands, rest_of, Branching, opens_from, tries_from};

// A partial choice: values of the first `len` variables, and the bound of that prefix.
#[derive(Clone, Copy)]
pub struct Partial {
    pub len: usize,
    pub values: [u8; 24],
    pub bound: [u64; 4],
}

// The values of the next variable from `value` on are to be tried; `rest` is what the records that it does not touch
// add to the bound.
#[derive(Clone, Copy)]
pub struct Branch {
    pub partial: Partial,
    pub rest: [u64; 4],
    pub value: u8,
}

// A point that a pass has met. What a pass holds is the least one so far, if any.
#[derive(Clone, Copy)]
pub struct Met {
    pub costs: [u64; 4],
    pub choice: [u8; 24],
}

// Whether one of the `k` listed points matches or beats the vector.
pub fn is_matched(c: [u64; 4], n: usize, work: &[u32], k: usize, p: usize) -> bool
    requires { (list_end ≤ length work.now) × (k ≤ max_points) × (p ≤ max_objectives) }
    ensures { result ≡ matched (take p c) (list_in p n work.now 0 k) }
{
    for i in 0..k {
        if vectors::is_at_most(&rows::row_costs(i, work), &c, p) {
            return true;
        }
    }
    false
}

// Whether a branch with this bound is hopeless: over a ceiling, matched by the list,
// or not earlier than the point held.
fn is_dead(
    bound: [u64; 4],
    best: Option<Met>,
    n: usize,
    work: &[u32],
    task: groups::Task,
    k: usize,
) -> bool
    requires { (list_end ≤ length work.now) × (k ≤ max_points) × (task.objectives ≤ max_objectives) }
    ensures { result ≡ dead_under (take task.objectives task.ceilings)
        (list_in task.objectives n work.now 0 k) (held_of task.objectives n best)
        (take task.objectives bound) }
{
    let p = task.objectives;
    let ceilings = task.ceilings;
    if !vectors::is_under(bound, ceilings, p) {
        return true;
    }
    if is_matched(bound, n, work, k, p) {
        return true;
    }
    match best {
        Some(held) => {
            let costs = held.costs;
            !vectors::is_earlier(bound, costs, p)
        }
        None => false,
    }
}

// The bound with what the variables after the prefix add to it.
fn sharper_bound(x: Partial, work: &[u32]) -> [u64; 4]
    requires { (search_end ≤ length work.now) × (x.len ≤ max_variables) × All (λ b. b ≤ core_sum_end) x.bound }
    ensures { result ≡ added x.bound (gains_in max_objectives work.now x.len) }
{
    let len = x.len;
    let bound = x.bound;
    let gains = vectors::numbers_at(work, layout::GAINS_AT + 4 * len);
    vectors::sum(bound, gains)
}

// What the records that the next variable does not touch add to the bound.
fn rest_of(x: Partial, s: &[u8], sizes: &[u8], work: &[u32], r: usize) -> [u64; 4]
    requires { Grouped sizes.now s.now work.now r × Stands r sizes.now s.now work.now x
        × (x.len < length sizes.now) }
    ensures { result ≡ rest_of r sizes.now s.now work.now x }
{
    let len = x.len;
    let values = x.values;
    let bound = x.bound;
    let touched = groups::group_bounds(s, sizes, r, len, &values[..len], work);
    [
        bound[0] - touched[0],
        bound[1] - touched[1],
        bound[2] - touched[2],
        bound[3] - touched[3],
    ]
}

impl Partial {
    // The partial choice with one more value; `rest` is what the records add that the variable does not touch.
    pub fn with(
        self,
        v: u8,
        rest: [u64; 4],
        s: &[u8],
        sizes: &[u8],
        work: &[u32],
        r: usize,
    ) -> Partial
        requires { Grouped sizes.now s.now work.now r × Stands r sizes.now s.now work.now self
            × (self.len < length sizes.now) × (v < get_or sizes.now self.len 0)
            × (rest ≡ rest_of r sizes.now s.now work.now self) }
        ensures { Stands r sizes.now s.now work.now result × (result.len ≡ self.len + 1)
            × (prefix_of result ≡ prefix_of self ++ (v ∷ [])) }
    {
        let len = self.len;
        let mut values = self.values;
        values[len] = v;
        let next = len + 1;
        let touched = groups::group_bounds(s, sizes, r, len, &values[..next], work);
        Partial {
            len: next,
            values,
            bound: [
                rest[0] + touched[0],
                rest[1] + touched[1],
                rest[2] + touched[2],
                rest[3] + touched[3],
            ],
        }
    }
}

// Opens the next variable of a partial choice and searches each of its values, unless the branch is hopeless;
// a complete choice is held.
#[cycle(open_variable_try_value)]
pub fn open_variable(
    x: Partial,
    best: Option<Met>,
    s: &[u8],
    sizes: &[u8],
    work: &[u32],
    task: groups::Task,
    k: usize,
) -> Option<Met>
    requires { Setting task k sizes.now s.now work.now
        × Stands task.records sizes.now s.now work.now x }
    ensures { held_of task.objectives (length sizes.now) result
        ≡ opens_from (problem_in task sizes.now s.now work.now)
        work.now (listed_in task sizes.now work.now k) (prefix_of x)
        (held_of task.objectives (length sizes.now) best) }
{
    let sharper = sharper_bound(x, work);
    let n = sizes.len();
    if is_dead(sharper, best, n, work, task, k) {
        return best;
    }
    let len = x.len;
    if len == n {
        let costs = x.bound;
        let choice = x.values;
        return Some(Met { costs, choice });
    }
    let rest = rest_of(x, s, sizes, work, task.records);
    let branch = Branch {
        partial: x,
        rest,
        value: 0,
    };
    try_value(branch, best, s, sizes, work, task, k)
}

// Searches the values of the next variable, from the branch's on.
#[cycle(open_variable_try_value)]
pub fn try_value(
    branch: Branch,
    best: Option<Met>,
    s: &[u8],
    sizes: &[u8],
    work: &[u32],
    task: groups::Task,
    k: usize,
) -> Option<Met>
    requires { Setting task k sizes.now s.now work.now
        × Branching task.records sizes.now s.now work.now branch }
    ensures { held_of task.objectives (length sizes.now) result
        ≡ tries_from (problem_in task sizes.now s.now work.now)
        work.now (listed_in task sizes.now work.now k) (prefix_of branch.partial)
        branch.value (held_of task.objectives (length sizes.now) best) }
{
    let x = branch.partial;
    let rest = branch.rest;
    let len = x.len;
    let mut held = best;
    for v in branch.value..sizes[len] {
        let child = x.with(v, rest, s, sizes, work, task.records);
        held = open_variable(child, held, s, sizes, work, task, k);
    }
    held
}

// The empty partial choice, with its bound over the `r` records that are searched.
pub fn root_of(s: &[u8], sizes: &[u8], r: usize, work: &[u32]) -> Partial
    requires { Placed sizes.now s.now work.now r }
    ensures { (result.len ≡ 0) × Stands r sizes.now s.now work.now result }
{
    let bound = groups::bounds_over(
        s,
        sizes,
        layout::RECORDS_AT,
        layout::RECORDS_AT + r,
        &sizes[..0],
        work,
    );
    Partial {
        len: 0,
        values: [0u8; 24],
        bound,
    }
}

// One pass: the least point that the `k` listed ones do not match. `root` is the empty choice with its bound.
pub fn next_point(
    root: Partial,
    s: &[u8],
    sizes: &[u8],
    work: &[u32],
    task: groups::Task,
    k: usize,
) -> Option<Met>
    requires { Setting task k sizes.now s.now work.now
        × Stands task.records sizes.now s.now work.now root × (root.len ≡ 0) }
    ensures { held_of task.objectives (length sizes.now) result
        ≡ pass (problem_in task sizes.now s.now work.now)
        (rule_of (problem_in task sizes.now s.now work.now) work.now)
        (listed_in task sizes.now work.now k) }
{
    open_variable(root, None, s, sizes, work, task, k)
}
