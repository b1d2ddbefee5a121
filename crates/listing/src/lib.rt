// Finds a frontier list, of a problem or of a half: its records are placed in work memory and searched.
#![tactic(auto)]

ghost use Rattle.std.specs.Prelude.{◌≡◌, ◌≤◌, true, false, length, take};
ghost use Rattle.model.specs.Basics.{All};
ghost use Rattle.model.specs.Limits.{max_points};
ghost use Rattle.model.specs.Reading.{problem_of};
ghost use Rattle.model.specs.Core.{WordCeiling, core_ceiling, core_ceilings, core_of, with_ceilings, core_frontier};
ghost use Rattle.model.specs.Views.{view};
ghost use Rattle.groups.specs.Sources.{Source, source_problem};
ghost use Rattle.pass_list.specs.Says.{FoundSays, CoreFound, FoundFor};
ghost use Rattle.branch_directions.specs.Directions.{Sensible};
ghost use Rattle.branch_search.specs.States.{rows_in, Between, unended};
ghost use Rattle.listing.specs.Says.{Searchable, Plannable, Kept, PlanSays, Explorable, Turned, Ended, found_of};

use plan_order::Order;
use plan_sums::Kind;

// A search of the second form has so many turns: the first four try a kind of plan each, and the last goes on with the
// kind that came furthest, as long as it takes.
const TURNS: usize = 5;

// The kind of plan that came furthest, and how far.
#[derive(Clone, Copy)]
struct Best {
    kind: Kind,
    done: u64,
}

// A turn of a search: the kind of its plan, and whether the plan is wide.
#[derive(Clone, Copy)]
struct Turn {
    kind: Kind,
    wide: bool,
}

// The forms of the search: by passes in list order, and by plans. Where the second gives up, the first goes on.
#[derive(Clone, Copy, PartialEq, Eq)]
pub enum Form {
    First,
    Second,
}

// What a search of the second form took, for those who measure: how many plans were made, how many of them failed their
// test, how many passes were made by the others, and how many partial choices these opened. Which form answered, or
// none where nothing was searched. Nothing relies on it.
#[derive(Clone, Copy)]
pub struct Measures {
    pub plans: u64,
    pub failed: u64,
    pub passes: u64,
    pub opened: u64,
    pub answered: Option<Form>,
}

// What the turns of a search found, and what they took.
#[derive(Clone, Copy)]
pub struct Taken {
    pub explored: branch_search::Explored,
    pub measures: Measures,
}

// What a search found, and what it took.
#[derive(Clone, Copy)]
pub struct Searched {
    pub found: Option<usize>,
    pub measures: Measures,
}

// The core's ceiling, which a cost stays below: one more than the last that fits, in eight bytes as the sums are.
fn wide(ceiling: u32) -> u64
    ensures { result ≡ core_ceiling ceiling }
{
    ceiling as u64 + 1
}

// The core's ceilings.
pub fn widened(ceilings: [u32; 4]) -> [u64; 4]
    ensures { result ≡ core_ceilings ceilings }
{
    [
        wide(ceilings[0]),
        wide(ceilings[1]),
        wide(ceilings[2]),
        wide(ceilings[3]),
    ]
}

// Whether each ceiling is at most one more than a number of four bytes: what is below it fits the second form.
fn are_short(ceilings: [u64; 4]) -> bool
    ensures { result ≡ true → All WordCeiling ceilings }
{
    ceilings.iter().all(|&ceiling| ceiling <= 4294967296)
}

// What the turn of this number is. All plans but the first are wide: most problems end with the first, which costs less
// to make.
fn turn_at(number: usize, best: Best) -> Turn {
    let kind = if number < 4 {
        Kind::from(number)
    } else {
        best.kind
    };
    let wide = 0 < number;
    Turn { kind, wide }
}

// Whether a sum can be adapted to the ceilings: several objectives, and a ceiling that binds.
fn is_adaptable(p: usize, ranges: plan_sums::Ranges) -> bool
    ensures { result ≡ true → 2 ≤ p }
{
    if p < 2 {
        return false;
    }
    ranges.binds
}

// The order of a plan of this kind: one with one sum alone goes by fill too; where no sum can be adapted it has the
// variables' own order.
fn order_of(kind: Kind, adaptable: bool) -> Order {
    match kind {
        Kind::Spreads => Order::Links,
        Kind::Slacks => Order::LinksFirst,
        Kind::Alone if !adaptable => Order::Own,
        Kind::Fill | Kind::Alone => Order::Fill,
    }
}

// How many partial choices a turn may open: the first so many that most problems end with it, and the last more than it
// ever will.
fn budget_of(number: usize) -> u64 {
    if number == 0 {
        return 200000;
    }
    if number < 4 {
        return 50000;
    }
    9223372036854775808
}

// The best kind after a turn by a plan of this kind that came so far.
fn best_after(best: Best, number: usize, kind: Kind, done: u64) -> Best {
    if number == 0 {
        return Best { kind, done };
    }
    if done <= best.done {
        return best;
    }
    Best { kind, done }
}

// Before the first plan is made.
pub fn unmeasured() -> Measures {
    Measures {
        plans: 0,
        failed: 0,
        passes: 0,
        opened: 0,
        answered: None,
    }
}

// One where a plan failed its test, so that no pass was made by it.
fn failed_by(passes: u64) -> u64 {
    if passes == 0 {
        return 1;
    }
    0
}

// With one more plan, which was searched by within a budget.
fn measured(m: Measures, budget: u64, effort: branch_search::Effort) -> Measures {
    let failed = failed_by(effort.passes);
    let mut opened: u64 = 0;
    if failed == 0 {
        opened = std::num::wrapping_sub_u64(budget, effort.left);
    }
    Measures {
        plans: std::num::wrapping_add_u64(m.plans, 1),
        failed: std::num::wrapping_add_u64(m.failed, failed),
        passes: std::num::wrapping_add_u64(m.passes, effort.passes),
        opened: std::num::wrapping_add_u64(m.opened, opened),
        answered: m.answered,
    }
}

// The same, and this form answered.
fn answered_by(form: Form, m: Measures) -> Measures {
    Measures {
        answered: Some(form),
        ..m
    }
}

// Plans the search of the `r` records whose places stand where a problem's records are,
// and answers whether the plan may be relied on. The archive stays.
fn plan_source(
    s: &[u8],
    sizes: &[u8],
    r: usize,
    d: branch_directions::Directions,
    making: plan_making::Making,
    work: &mut [u32],
) -> bool
    requires { Plannable r sizes.now s.now work.old × Sensible d }
    ensures { Kept r work.old work.new
        × (rows_in work.new ≡ rows_in work.old)
        × (result ≡ true → PlanSays d r sizes.now s.now work.old work.new) }
{
    groups::copy_numbers(layout::SOURCE_AT, layout::PLAN_AT, r, work);
    plan_making::make_plan(s, sizes, r, d, making, &mut work[layout::PLAN_AT..]);
    plan_test::is_sound(s, sizes, r, d, &work[layout::PLAN_AT..])
}

// The sums of a plan of this kind. Where a ceiling binds, one of each kind but the first is adapted to the ceilings:
// that takes plans of its own, which no problem pays for that the first plan answers. The archive stays.
fn turn_sums(
    s: &[u8],
    sizes: &[u8],
    task: groups::Task,
    ranges: plan_sums::Ranges,
    kind: Kind,
    work: &mut [u32],
) -> branch_directions::Sums
    requires { Explorable task sizes.now s.now work.old }
    ensures { Kept task.records work.old work.new
        × (rows_in work.new ≡ rows_in work.old) }
{
    let p = task.objectives;
    let sums = plan_sums::sums_of(kind, p, ranges);
    if kind == Kind::Spreads {
        return sums;
    }
    if !is_adaptable(p, ranges) {
        return sums;
    }
    groups::copy_numbers(layout::SOURCE_AT, layout::PLAN_AT, task.records, work);
    let shares = plan_adapting::adapted_shares(
        s,
        sizes,
        task,
        ranges,
        order_of(kind, true),
        &mut work[layout::PLAN_AT..],
    );
    plan_sums::with_adapted(sums, shares, ranges)
}

// A plan with these sums is made as asked, tested and searched by. Where it fails its test the archive is as it was.
fn search_by(
    s: &[u8],
    sizes: &[u8],
    task: groups::Task,
    sums: branch_directions::Sums,
    making: plan_making::Making,
    from: branch_search::Resume,
    work: &mut [u32],
) -> branch_search::Explored
    requires { Explorable task sizes.now s.now work.old
        × Between (source_problem task sizes.now s.now work.old) task.room work.old from.points }
    ensures { Turned task sizes.now s.now work.old work.new result }
{
    let d = branch_directions::choose_directions(task.objectives, sums);
    if !plan_source(s, sizes, task.records, d, making, work) {
        return branch_search::not_made(from.points);
    }
    branch_search::explore(from, s, sizes, task, d, work)
}

// One turn: the sums of a plan that is made so are found, and it is searched by.
fn search_turn(
    s: &[u8],
    sizes: &[u8],
    task: groups::Task,
    ranges: plan_sums::Ranges,
    turn: Turn,
    from: branch_search::Resume,
    work: &mut [u32],
) -> branch_search::Explored
    requires { Explorable task sizes.now s.now work.old
        × Between (source_problem task sizes.now s.now work.old) task.room work.old from.points }
    ensures { Turned task sizes.now s.now work.old work.new result }
{
    let sums = turn_sums(s, sizes, task, ranges, turn.kind, work);
    let order = order_of(turn.kind, is_adaptable(task.objectives, ranges));
    let making = plan_making::Making {
        order,
        wide: turn.wide,
    };
    search_by(s, sizes, task, sums, making, from, work)
}

// The turns of a search, each with the archive that the turn before has left.
fn take_turns(
    s: &[u8],
    sizes: &[u8],
    task: groups::Task,
    ranges: plan_sums::Ranges,
    work: &mut [u32],
) -> Taken
    requires { Explorable task sizes.now s.now work.old }
    ensures { Turned task sizes.now s.now work.old work.new
        result.explored }
{
    let mut best = Best {
        kind: Kind::Spreads,
        done: 0,
    };
    let mut measures = unmeasured();
    let mut points: usize = 0;
    for number in 0..TURNS {
        let turn = turn_at(number, best);
        let budget = budget_of(number);
        let from = branch_search::Resume { points, budget };
        let explored = search_turn(s, sizes, task, ranges, turn, from, work);
        let effort = explored.effort;
        measures = measured(measures, budget, effort);
        if explored.decided {
            return Taken { explored, measures };
        }
        points = explored.count;
        best = best_after(best, number, turn.kind, effort.done);
    }
    let explored = branch_search::not_made(points);
    Taken { explored, measures }
}

// Nothing is planned and searched.
fn not_taken() -> Taken
    ensures { result.explored ≡ unended 0 (record { left = 0; done = 0; passes = 0 }) }
{
    let explored = branch_search::not_made(0);
    let measures = unmeasured();
    Taken { explored, measures }
}

// The second form of the search. It gives up where there is nothing to plan, where a ceiling is too large for it, or
// where no turn ends it.
fn explore_source(s: &[u8], sizes: &[u8], task: groups::Task, work: &mut [u32]) -> Taken
    requires { Source task sizes.now s.now work.old × (task.room ≤ max_points) }
    ensures { Ended task sizes.now s.now work.old work.new
        result.explored }
{
    let ceilings = task.ceilings;
    let n = sizes.len();
    if n == 0 {
        return not_taken();
    }
    if task.objectives == 0 {
        return not_taken();
    }
    if !are_short(ceilings) {
        return not_taken();
    }
    let r = task.records;
    let extents = plan_spreads::extents_of(s, sizes, r, ceilings, &work[layout::SOURCE_AT..]);
    let mosts = extents.mosts;
    let fit = plan_spreads::fitted_ceilings(ceilings, mosts);
    let ranges = plan_sums::ranges_of(task.objectives, extents, fit);
    let near = groups::Task {
        records: r,
        objectives: task.objectives,
        ceilings: fit,
        room: task.room,
    };
    take_turns(s, sizes, near, ranges, work)
}

// What the second form found where it is decided, as a finding of the first.
fn found_of(e: branch_search::Explored) -> Option<usize>
    ensures { result ≡ found_of e }
{
    if e.full {
        return None;
    }
    Some(e.count)
}

// The frontier list of a task whose records' places stand in work memory where a problem's records are: by the second
// form, and where that gives up by the first; or only by the first.
pub fn find_source(
    s: &[u8],
    sizes: &[u8],
    task: groups::Task,
    form: Form,
    work: &mut [u32],
) -> Searched
    requires { Source task sizes.now s.now work.old × (task.room ≤ max_points) }
    ensures { CoreFound (source_problem task sizes.now s.now work.old)
        task.room work.old work.new result.found }
{
    if form == Form::First {
        let found = pass_list::find_source(s, sizes, task, work);
        let measures = answered_by(form, unmeasured());
        return Searched { found, measures };
    }
    let t = explore_source(s, sizes, task, work);
    let e = t.explored;
    if e.decided {
        let found = found_of(e);
        let measures = answered_by(form, t.measures);
        return Searched { found, measures };
    }
    let found = pass_list::find_source(s, sizes, task, work);
    let measures = answered_by(Form::First, t.measures);
    Searched { found, measures }
}

// The frontier list of a problem that was read, in work memory; only by the first form where that is asked for.
pub fn find_list(
    s: &[u8],
    q: problem::Problem,
    room: usize,
    form: Form,
    work: &mut [u32],
) -> Searched
    requires { Searchable s.now q work.old × (room ≤ max_points) }
    ensures { FoundFor (problem_of s.now) room work.old work.new result.found }
{
    let head = q.head;
    let n = head.variables as usize;
    let p = head.objectives as usize;
    let r = head.tables;
    let sizes = q.sizes;
    let at = problem::tables_start(head);
    problem::keep_places(s, at, r, &sizes[..n], &mut work[layout::SOURCE_AT..]);
    let ceilings = head.ceilings;
    let wide = widened(ceilings);
    let task = groups::Task {
        records: r as usize,
        objectives: p,
        ceilings: wide,
        room,
    };
    find_source(s, &sizes[..n], task, form, work)
}

// The list of one half, in work memory: the records on the side, over the domain sizes that it leaves, under the half's
// own ceilings.
pub fn find_half(
    s: &[u8],
    q: problem::Problem,
    sides: &[u8],
    side: u8,
    ceilings: [u64; 4],
    work: &mut [u32],
) -> Option<usize>
    requires { Searchable s.now q work.old × (length (problem_of s.now).domains ≡ length sides.now) }
    ensures { FoundSays q.head.objectives q.head.variables
        (core_frontier (view side
        (with_ceilings (take q.head.objectives ceilings) (core_of (problem_of s.now)))
        sides.now))
        max_points work.old work.new result }
{
    let head = q.head;
    let n = head.variables as usize;
    let p = head.objectives as usize;
    let r = head.tables;
    let sizes = q.sizes;
    let at = problem::tables_start(head);
    problem::keep_places(s, at, r, &sizes[..n], &mut work[layout::RECORDS_AT..]);
    let narrow = views::narrow(&sizes[..n], sides, side);
    let part = views::Part {
        side,
        low: 0,
        high: 4,
    };
    let which = views::Selection {
        part,
        records: r as usize,
        from: layout::RECORDS_AT,
        to: layout::SOURCE_AT,
    };
    let count = views::keep_records(s, &sizes[..n], sides, which, work);
    let task = groups::Task {
        records: count,
        objectives: p,
        ceilings,
        room: 64,
    };
    let searched = find_source(s, &narrow[..n], task, Form::Second, work);
    searched.found
}
