// The second form of the search: passes of branch and bound over a plan, into an archive, until one leaves nothing out.
#![tactic(auto)]

ghost use Rattle.std.specs.Prelude.{◌≡◌, ℕ, ◌+◌, ◌<◌, ◌≤◌, List, length};
ghost use Rattle.model.specs.Basics.{All};
ghost use Rattle.model.specs.Limits.{max_variables, max_domain, max_points};
ghost use Rattle.model.specs.Problems.{Word};
ghost use Rattle.model.specs.Core.{WordCeiling, core_frontier};
ghost use Rattle.model.specs.Archive.{weighted};
ghost use Rattle.layout.specs.Layout.{list_end};
ghost use Rattle.groups.specs.Sources.{source_problem};
ghost use Rattle.rows.specs.Rows.{costs_in, EachCost};
ghost use Rattle.branch_directions.specs.Directions.{lead_weights, Sensible};
ghost use Rattle.branch_zones.specs.Zones.{Measured};
ghost use Rattle.branch_pruning.specs.Tests.{zones_of, Reached};
ghost use Rattle.branch_search.specs.States.{problem_of, extended, leaf, Ready, Standing, OpenedFrom};
ghost use Rattle.branch_search.specs.States.{spent, met_with, stopped};
ghost use Rattle.branch_search.specs.States.{reaching, unended, Between, Passed, ExploredSays, LeftOver};
ghost use Rattle.branch_search.specs.Passes.{ZonesWritten, ZonesHold};

// The limit while nothing is left out: no leading sum is as large. A value that was tried counts as having this one.
const NO_LIMIT: u64 = u64::MAX;

// After so many passes the search is given up.
const MAX_PASSES: usize = 66;

// After so many complete choices a pass is given up: more than any meets.
const MAX_MEETS: u64 = 9223372036854775808;

// How far a pass came is told in parts of this.
const WHOLE: u64 = 1099511627776;

// What a search goes on from: how many points are archived, and how many partial choices it may open.
#[derive(Clone, Copy)]
pub struct Resume {
    pub points: usize,
    pub budget: u64,
}

// What a search took, for those who choose the next plan or measure: how many partial choices may still be opened, how
// far the last pass came where there are none, and how many passes there were.
#[derive(Clone, Copy)]
pub struct Effort {
    pub left: u64,
    pub done: u64,
    pub passes: u64,
}

// Whether the search came to an end, whether the list is longer than the room, and else how many points it has; those
// of the archive where it was given up.
#[derive(Clone, Copy)]
pub struct Explored {
    pub decided: bool,
    pub full: bool,
    pub count: usize,
    pub effort: Effort,
}

// What is searched, and in which directions.
#[derive(Clone, Copy)]
pub struct Aim {
    pub task: groups::Task,
    pub d: branch_directions::Directions,
}

// A partial choice: values for the variables at the first `depth` positions, and its bound in every direction.
#[derive(Clone, Copy)]
pub struct Node {
    pub depth: usize,
    pub choice: [u8; 24],
    pub bound: [u64; 8],
}

impl Node {
    // One more variable has its value: the next partial choice, with the bound that it then has.
    fn with(self, variable: usize, value: usize, bound: [u64; 8]) -> Node
        requires { (self.depth < max_variables) × (variable < max_variables) × (value < max_domain) }
        ensures { result ≡ extended self variable value bound }
    {
        let choice = branch_buckets::with_value(self.choice, variable, value);
        Node {
            depth: self.depth + 1,
            choice,
            bound,
        }
    }
}

// Of the partial choices that may be opened this is one.
fn count_opened(run: branch_pruning::Progress) -> branch_pruning::Progress
    requires { 1 ≤ run.left }
    ensures { result ≡ spent run }
{
    branch_pruning::Progress {
        left: run.left - 1,
        ..run
    }
}

// A complete choice is met: there are so many points and zones then, and this limit.
fn count_met(
    run: branch_pruning::Progress,
    points: usize,
    zones: usize,
    limit: u64,
) -> branch_pruning::Progress
    requires { 1 ≤ run.meets }
    ensures { result ≡ met_with run points zones limit }
{
    branch_pruning::Progress {
        points,
        zones,
        limit,
        meets: run.meets - 1,
        ..run
    }
}

// The pass is given up.
fn stop(run: branch_pruning::Progress) -> branch_pruning::Progress
    ensures { result ≡ stopped run }
{
    branch_pruning::Progress { left: 0, ..run }
}

// A complete choice is met: it is taken into the archive, and where it is new out of the zones.
// Not so where it is over a ceiling or not below the limit. It comes in parts: were it a node, the compiler would copy
// every node byte by byte, because the bytes of a choice are read one by one here.
fn take_leaf(
    x: [u8; 24],
    bound: [u64; 8],
    run: branch_pruning::Progress,
    s: &[u8],
    sizes: &[u8],
    aim: Aim,
    work: &mut [u32],
) -> branch_pruning::Progress
    requires { Standing aim.d aim.task sizes.now s.now work.old run (leaf sizes.now x bound) }
    ensures { OpenedFrom aim.d aim.task sizes.now s.now
        (leaf sizes.now x bound) work.old run work.new result }
{
    let task = aim.task;
    let d = aim.d;
    let p = d.objectives;
    let ceilings = task.ceilings;
    let costs = branch_pruning::front_of(bound);
    let is_over = !vectors::is_under(costs, ceilings, p);
    if is_over {
        return run;
    }
    if branch_directions::lead_of(bound, d) >= run.limit {
        return run;
    }
    if run.meets == 0 {
        return stop(run);
    }
    let weights = branch_directions::lead_weights(d);
    let n = sizes.len();
    let t = branch_archive::take_point(
        x, costs, run.points, run.limit, task.room, p, n, weights, work,
    );
    if !t.added {
        return count_met(run, t.points, run.zones, t.limit);
    }
    let m = branch_zones::split_zones(costs, run.zones, d, &mut work[..layout::ZONES_END]);
    count_met(run, t.points, m, t.limit)
}

// Takes what the first `c` archived points match out of `m` zones; how many there are then.
fn split_all(c: usize, m: usize, d: branch_directions::Directions, work: &mut [u32]) -> usize
    requires { Sensible d × (list_end ≤ length work.old) × (c ≤ max_points + 1)
        × Measured d (zones_of work.old) m × EachCost Word d.objectives work.old c }
    ensures { ZonesWritten d work.old work.new result
        × ((ceilings : List ℕ) → ZonesHold d c ceilings work.old work.old m
        → ZonesHold d c ceilings work.old work.new result) }
{
    let mut zones = m;
    for i in 0..c {
        let costs = rows::row_costs(i, work);
        zones = branch_zones::split_zones(costs, zones, d, &mut work[..layout::ZONES_END]);
    }
    zones
}

// The zones at the start of a pass: all that is under the ceilings and that no archived point matches. How many there
// are.
fn start_zones(
    c: usize,
    ceilings: [u64; 4],
    d: branch_directions::Directions,
    work: &mut [u32],
) -> usize
    requires { Sensible d × (list_end ≤ length work.old) × (c ≤ max_points + 1) × All WordCeiling ceilings
        × EachCost Word d.objectives work.old c }
    ensures { ZonesWritten d work.old work.new result
        × ZonesHold d c ceilings work.old work.new result }
{
    let m = branch_zones::first_zone(ceilings, d, &mut work[..layout::ZONES_END]);
    split_all(c, m, d, work)
}

// One more value is finished, unless the pass was given up before that.
fn add_finished(finished: u64, left: u64) -> u64 {
    if left == 0 {
        return finished;
    }
    finished.wrapping_add(WHOLE)
}

// Where a pass is given up below a partial choice, it came so far: what is finished of the `size` values of the next
// variable, and a part of one.
fn part_done(run: branch_pruning::Progress, finished: u64, size: usize) -> branch_pruning::Progress
    requires { 1 ≤ size }
    ensures { result ≡ reaching run result.done }
{
    if run.left > 0 {
        return run;
    }
    branch_pruning::Progress {
        done: finished.wrapping_add(run.done) / size as u64,
        ..run
    }
}

// Opens a partial choice where its completions may be new, or earlier than an archived choice with equal costs. `reach`
// lists what it may reach.
#[cycle(open_position_try_choice)]
fn try_choice(
    node: Node,
    reach: &[u8],
    run: branch_pruning::Progress,
    s: &[u8],
    sizes: &[u8],
    aim: Aim,
    work: &mut [u32],
) -> branch_pruning::Progress
    requires { Standing aim.d aim.task sizes.now s.now work.old run node
        × Reached aim.d work.old run node.bound reach.now }
    ensures { OpenedFrom aim.d aim.task sizes.now s.now node
        work.old run work.new result }
{
    let n = sizes.len();
    let x = node.choice;
    let bound = node.bound;
    let d = aim.d;
    if branch_pruning::is_alive(x, bound, reach, run, n, d, work) {
        return open_position(node, reach, run, s, sizes, aim, work);
    }
    run
}

// Tries each value of the variable at the next position, by rising leading sums of the bound, as long as these are
// below the limit. A complete choice is met. Nothing is done once the pass is given up. What the values may reach is
// listed here, of what is in `from`, and anew once a complete choice was met.
#[cycle(open_position_try_choice)]
fn open_position(
    node: Node,
    from: &[u8],
    run: branch_pruning::Progress,
    s: &[u8],
    sizes: &[u8],
    aim: Aim,
    work: &mut [u32],
) -> branch_pruning::Progress
    requires { Standing aim.d aim.task sizes.now s.now work.old run node
        × Reached aim.d work.old run node.bound from.now }
    ensures { OpenedFrom aim.d aim.task sizes.now s.now node
        work.old run work.new result }
{
    if run.left == 0 {
        return run;
    }
    let n = sizes.len();
    let k = node.depth;
    let x = node.choice;
    let bound = node.bound;
    if k == n {
        return take_leaf(x, bound, run, s, sizes, aim, work);
    }
    let d = aim.d;
    let v = branch_buckets::variable_at(k, &work[layout::PLAN_AT..]);
    let size = sizes[v] as usize;
    let rows = branch_values::bucket_at(k, v, &x[..n], s, sizes, d, &work[layout::PLAN_AT..]);
    let away = branch_values::away_at(
        k,
        &x[..n],
        s,
        sizes,
        aim.task.records,
        d,
        &work[layout::PLAN_AT..],
    );
    let mut leads = branch_values::leads_of(&rows, bound, away, size, d);
    let mut a = branch_values::least_value(&leads, size);
    let mut t = count_opened(run);
    let mut reach = [0u8; branch_pruning::REACH_WIDTH];
    branch_pruning::reach_of(bound, from, t, d, work, &mut reach);
    let mut seen = t.meets;
    let mut finished: u64 = 0;
    while leads[a] < t.limit {
        if seen != t.meets {
            branch_pruning::reach_anew(bound, t, d, work, &mut reach);
            seen = t.meets;
        }
        let b = branch_values::row_of(&rows, a, bound, away, d.objectives + d.sums);
        let next = node.with(v, a, b);
        t = try_choice(next, &reach, t, s, sizes, aim, work);
        finished = add_finished(finished, t.left);
        leads[a] = NO_LIMIT;
        a = branch_values::least_value(&leads, size);
    }
    part_done(t, finished, size)
}

// The limit with which a pass starts: none while there is room, else the largest leading sum of the archive's points.
// What beats one of them has a smaller sum, so that the pass still finds whether the list is longer than the room.
fn start_limit(points: usize, room: usize, d: branch_directions::Directions, work: &[u32]) -> u64
    requires { Sensible d × (list_end ≤ length work.now) × (points ≤ max_points + 1)
        × EachCost Word d.objectives work.now points }
    ensures { (i : ℕ) → i < points
        → weighted (lead_weights d) (costs_in d.objectives work.now i) ≤ result }
{
    if points <= room {
        return NO_LIMIT;
    }
    let weights = branch_directions::lead_weights(d);
    branch_archive::largest_sum(points, weights, d.objectives, work)
}

// One pass: all choices, into the archive with which it starts. What its limit leaves out is for the next one. It is
// given up once `left` partial choices are opened.
fn run_pass(
    points: usize,
    left: u64,
    s: &[u8],
    sizes: &[u8],
    task: groups::Task,
    d: branch_directions::Directions,
    work: &mut [u32],
) -> branch_pruning::Progress
    requires { Ready d task sizes.now s.now work.old
        × Between (source_problem task sizes.now s.now work.old) task.room work.old points }
    ensures { Passed (problem_of d task sizes.now s.now work.old)
        d task (length sizes.now) left work.old work.new result }
{
    let ceilings = task.ceilings;
    let limit = start_limit(points, task.room, d, work);
    let m = start_zones(points, ceilings, d, work);
    let bound = branch_values::root_bound(s, sizes, task.records, d, &work[layout::PLAN_AT..]);
    let run = branch_pruning::Progress {
        points,
        zones: m,
        limit,
        left,
        done: 0,
        meets: MAX_MEETS,
    };
    let mut reach = [0u8; branch_pruning::REACH_WIDTH];
    branch_pruning::full_reach(run, &mut reach);
    let node = Node {
        depth: 0,
        choice: [0u8; 24],
        bound,
    };
    open_position(node, &reach, run, s, sizes, Aim { task, d }, work)
}

// What is said of a search that was given up.
pub fn given_up(points: usize, effort: Effort) -> Explored
    ensures { result ≡ unended points effort }
{
    Explored {
        decided: false,
        full: false,
        count: points,
        effort,
    }
}

// What is said of a search that was not made.
pub fn not_made(points: usize) -> Explored
    ensures { result ≡ unended points (record { left = 0; done = 0; passes = 0 }) }
{
    let effort = Effort {
        left: 0,
        done: 0,
        passes: 0,
    };
    given_up(points, effort)
}

// The frontier list of the problem whose records stand in the plan, in the archive's rows; or, where the budget or the
// passes are over before it is found, an archive from which another search may go on.
pub fn explore(
    from: Resume,
    s: &[u8],
    sizes: &[u8],
    task: groups::Task,
    d: branch_directions::Directions,
    work: &mut [u32],
) -> Explored
    requires { Ready d task sizes.now s.now work.old
        × Between (source_problem task sizes.now s.now work.old) task.room work.old from.points }
    ensures { ExploredSays task (length sizes.now)
        (core_frontier (source_problem task sizes.now s.now work.old))
        work.old work.new result
        × LeftOver (source_problem task sizes.now s.now work.old)
        task.room from.budget work.new result }
{
    let mut points = from.points;
    let mut left = from.budget;
    for pass in 0..MAX_PASSES {
        let t = run_pass(points, left, s, sizes, task, d, work);
        let effort = Effort {
            left: t.left,
            done: t.done,
            passes: pass as u64 + 1,
        };
        let is_given_up = t.left == 0;
        if is_given_up {
            return given_up(t.points, effort);
        }
        if t.points > task.room {
            return Explored {
                decided: true,
                full: true,
                count: 0,
                effort,
            };
        }
        let is_last = t.limit == NO_LIMIT;
        if is_last {
            branch_archive::sort_points(t.points, d.objectives, work);
            return Explored {
                decided: true,
                full: false,
                count: t.points,
                effort,
            };
        }
        points = t.points;
        left = t.left;
    }
    let effort = Effort {
        left,
        done: 0,
        passes: MAX_PASSES as u64,
    };
    given_up(points, effort)
}
