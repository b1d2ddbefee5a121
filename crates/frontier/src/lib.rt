// The public calls, and each as C calls it, with a place for every number of its answer; the version.
#![tactic(auto)]

ghost use Rattle.std.specs.Prelude.{◌≡◌, replicate};
ghost use Rattle.model.specs.Basics.{when};
ghost use Rattle.model.specs.Limits.{max_objectives};
ghost use Rattle.model.specs.Reasons.{told, value_or};
ghost use Rattle.model.specs.Calls.{solve_outcome, list_outcome, cut_outcome, bound_outcome};
ghost use Rattle.text_networks.specs.Conversions.{to_text_outcome, from_text_outcome};
ghost use Rattle.frontier.specs.Says.{as_points, SolveExports, ListExports, CutExports, BoundExports};
ghost use Rattle.form_canonical.specs.Canonical.{canonical_outcome};
ghost use Rattle.cache_answers.specs.Outcomes.{cached_outcome};
ghost use Rattle.batch_frames.specs.Outcomes.{batch_outcome};
ghost use Rattle.frontier.specs.Says.{ConvertExports, CanonicalExports, CachedExports, BatchExports};
ghost use Rattle.frontier.specs.Says.{halves_in, form_in};
ghost use Rattle.frontier.specs.Version.{version};

use model::Refusal;

// The version of the interface; include/frontier.h has the same three numbers.
const VERSION_MAJOR: u32 = 3;

const VERSION_MINOR: u32 = 1;

const VERSION_PATCH: u32 = 0;

pub fn frontier_version() -> u32
    ensures { result ≡ version }
{
    VERSION_MAJOR * 1000000 + VERSION_MINOR * 1000 + VERSION_PATCH
}

// The plain call by the second form of the search, or by the first one alone.
fn solve_as(
    problem: &[u8],
    costs: &mut [u32],
    choices: &mut [u8],
    work: &mut [u32],
    form: listing::Form,
) -> solve_call::Solved
    ensures { SolveExports problem.now
        (solve_outcome problem.now costs.old choices.old work.old)
        costs.new choices.new work.new
        (told result.answer).number (told result.answer).place (value_or 0 result.answer) }
{
    solve_call::solve_with(problem, costs, choices, work, form)
}

// The plain call.
pub fn solve_problem(
    problem: &[u8],
    costs: &mut [u32],
    choices: &mut [u8],
    work: &mut [u32],
) -> Result<u32, Refusal>
    ensures { SolveExports problem.now
        (solve_outcome problem.now costs.old choices.old work.old)
        costs.new choices.new work.new (told result).number (told result).place (value_or 0 result) }
{
    let solved = solve_as(problem, costs, choices, work, listing::Form::Second);
    solved.answer
}

// The plain call by the first form of the search alone: the same answer, later. Benchmarks compare with it.
pub fn solve_by_passes(
    problem: &[u8],
    costs: &mut [u32],
    choices: &mut [u8],
    work: &mut [u32],
) -> Result<u32, Refusal>
    ensures { SolveExports problem.now
        (solve_outcome problem.now costs.old choices.old work.old)
        costs.new choices.new work.new (told result).number (told result).place (value_or 0 result) }
{
    let solved = solve_as(problem, costs, choices, work, listing::Form::First);
    solved.answer
}

pub fn frontier_solve(
    problem: &[u8],
    costs: &mut [u32],
    choices: &mut [u8],
    work: &mut [u32],
    place: &mut u32,
    count: &mut u32,
) -> u8
    ensures { SolveExports problem.now
        (solve_outcome problem.now costs.old choices.old work.old)
        costs.new choices.new work.new result place.new count.new }
{
    let answer = solve_problem(problem, costs, choices, work);
    model::tell_count(answer, place, count)
}

pub fn frontier_solve_by_passes(
    problem: &[u8],
    costs: &mut [u32],
    choices: &mut [u8],
    work: &mut [u32],
    place: &mut u32,
    count: &mut u32,
) -> u8
    ensures { SolveExports problem.now
        (solve_outcome problem.now costs.old choices.old work.old)
        costs.new choices.new work.new result place.new count.new }
{
    let answer = solve_by_passes(problem, costs, choices, work);
    model::tell_count(answer, place, count)
}

// The plain call, and what its search took, of which nothing is promised: which form answered, plans, those of them
// that failed their test, passes, and opened partial choices.
pub fn frontier_solve_measured(
    problem: &[u8],
    costs: &mut [u32],
    choices: &mut [u8],
    work: &mut [u32],
    place: &mut u32,
    count: &mut u32,
    measures: &mut [u64; 8],
) -> u8
    ensures { SolveExports problem.now
        (solve_outcome problem.now costs.old choices.old work.old)
        costs.new choices.new work.new result place.new count.new }
{
    let solved = solve_as(problem, costs, choices, work, listing::Form::Second);
    let answer = solved.answer;
    let taken = solved.measures;
    solve_call::tell_measures(taken, measures);
    model::tell_count(answer, place, count)
}

// The frontier list as point records.
pub fn list_points(
    problem: &[u8],
    points: &mut [model::Point],
    work: &mut [u32],
) -> Result<u32, Refusal>
    ensures { ListExports problem.now
        (list_outcome problem.now (as_points points.old) work.old)
        points.new work.new (told result).number (told result).place (value_or 0 result) }
{
    let found = solve_call::list_rows(problem, points.len(), work)?;
    rows_out::copy_points(work, found.count, found.variables, found.objectives, points);
    rows_out::clear(work);
    Ok(found.count as u32)
}

pub fn frontier_points(
    problem: &[u8],
    points: &mut [model::Point],
    work: &mut [u32],
    place: &mut u32,
    count: &mut u32,
) -> u8
    ensures { ListExports problem.now
        (list_outcome problem.now (as_points points.old) work.old)
        points.new work.new result place.new count.new }
{
    let answer = list_points(problem, points, work);
    model::tell_count(answer, place, count)
}

// The bound of a prefix: for each objective the sum of the least entries that agree with it.
pub fn bound_prefix(problem: &[u8], prefix: &[u8]) -> Result<[u64; 4], Refusal>
    ensures { BoundExports problem.now (bound_outcome problem.now prefix.now)
        (told result).number (told result).place (value_or (replicate max_objectives 0) result) }
{
    bound_call::bound_of(problem, prefix)
}

pub fn frontier_bound(problem: &[u8], prefix: &[u8], least: &mut [u64; 4], place: &mut u32) -> u8
    ensures { BoundExports problem.now (bound_outcome problem.now prefix.now)
        result place.new least.new }
{
    let bound = bound_prefix(problem, prefix);
    bound_call::tell_bound(bound, least, place)
}

// The frontier list by the cut: that of the uncut problem, for any side list that no record has on both sides.
pub fn solve_cut(
    problem: &[u8],
    sides: &[u8],
    costs: &mut [u32],
    choices: &mut [u8],
    work: &mut [u32],
) -> Result<answers::Halves, Refusal>
    ensures { CutExports problem.now
        (cut_outcome problem.now sides.now
        costs.old choices.old work.old)
        costs.new choices.new work.new
        (told result).number (told result).place (halves_in result).count
        (halves_in result).first (halves_in result).second }
{
    cut_call::cut_problem(problem, sides, costs, choices, work)
}

pub fn frontier_cut(
    problem: &[u8],
    sides: &[u8],
    costs: &mut [u32],
    choices: &mut [u8],
    work: &mut [u32],
    place: &mut u32,
    count: &mut u32,
    first: &mut u32,
    second: &mut u32,
) -> u8
    ensures { CutExports problem.now
        (cut_outcome problem.now sides.now
        costs.old choices.old work.old)
        costs.new choices.new work.new
        result place.new count.new first.new second.new }
{
    let halves = solve_cut(problem, sides, costs, choices, work);
    answers::tell_halves(halves, place, count, first, second)
}

// A problem with one objective as WCSP text.
pub fn problem_to_text(problem: &[u8], text: &mut [u8]) -> Result<u32, Refusal>
    ensures { ConvertExports problem.now (to_text_outcome problem.now text.old)
        text.new (told result).number (told result).place (value_or 0 result) }
{
    text_writing::to_text(problem, text)
}

pub fn frontier_to_text(problem: &[u8], text: &mut [u8], place: &mut u32, count: &mut u32) -> u8
    ensures { ConvertExports problem.now (to_text_outcome problem.now text.old)
        text.new result place.new count.new }
{
    let converted = problem_to_text(problem, text);
    model::tell_count(converted, place, count)
}

// The records of a WCSP text.
pub fn problem_from_text(text: &[u8], problem: &mut [u8]) -> Result<u32, Refusal>
    ensures { ConvertExports text.now (from_text_outcome text.now problem.old)
        problem.new (told result).number (told result).place (value_or 0 result) }
{
    text_reading::from_text(text, problem)
}

pub fn frontier_from_text(text: &[u8], problem: &mut [u8], place: &mut u32, count: &mut u32) -> u8
    ensures { ConvertExports text.now (from_text_outcome text.now problem.old)
        problem.new result place.new count.new }
{
    let converted = problem_from_text(text, problem);
    model::tell_count(converted, place, count)
}

// The canonical form of a problem, and its key.
pub fn problem_canonical(
    problem: &[u8],
    form: &mut [u8],
) -> Result<form_canonical::Canonical, Refusal>
    ensures { CanonicalExports problem.now
        (canonical_outcome problem.now form.old)
        form.new (told result).number (told result).place (form_in result).count (form_in result).key }
{
    form_call::canonical_form(problem, form)
}

pub fn frontier_canonical(
    problem: &[u8],
    form: &mut [u8],
    place: &mut u32,
    count: &mut u32,
    key: &mut u64,
) -> u8
    ensures { CanonicalExports problem.now
        (canonical_outcome problem.now form.old)
        form.new result place.new count.new key.new }
{
    let canonical = problem_canonical(problem, form);
    form_canonical::tell(canonical, place, count, key)
}

// The plain call with a store of solved problems.
pub fn solve_cached(
    problem: &[u8],
    costs: &mut [u32],
    choices: &mut [u8],
    work: &mut [u32],
    store: &mut [u8],
) -> cache_answers::Cached
    ensures { CachedExports problem.now
        (cached_outcome problem.now costs.old choices.old work.old
        store.old)
        costs.new choices.new work.new store.new
        (told result.answer).number (told result.answer).place (value_or 0 result.answer) (when result.hit 1) }
{
    cache_call::solve_cached(problem, costs, choices, work, store)
}

pub fn frontier_solve_cached(
    problem: &[u8],
    costs: &mut [u32],
    choices: &mut [u8],
    work: &mut [u32],
    store: &mut [u8],
    place: &mut u32,
    count: &mut u32,
    hit: &mut u8,
) -> u8
    ensures { CachedExports problem.now
        (cached_outcome problem.now costs.old choices.old work.old
        store.old)
        costs.new choices.new work.new store.new
        result place.new count.new hit.new }
{
    let cached = solve_cached(problem, costs, choices, work, store);
    cache_answers::tell(cached, place, count, hit)
}

// The frontier lists of up to 16 problems, each as the plain call gives it on its areas.
pub fn solve_batch(
    batch: &[u8],
    costs: &mut [u32],
    choices: &mut [u8],
    results: &mut [u32],
    work: &mut [u32],
) -> Result<u32, Refusal>
    ensures { BatchExports batch.now
        (batch_outcome batch.now costs.old choices.old results.old
        work.old)
        costs.new choices.new results.new work.new
        (told result).number (told result).place (value_or 0 result) }
{
    batch_call::solve_batch(batch, costs, choices, results, work)
}

pub fn frontier_batch(
    batch: &[u8],
    costs: &mut [u32],
    choices: &mut [u8],
    results: &mut [u32],
    work: &mut [u32],
    place: &mut u32,
    count: &mut u32,
) -> u8
    ensures { BatchExports batch.now
        (batch_outcome batch.now costs.old choices.old results.old
        work.old)
        costs.new choices.new results.new work.new
        result place.new count.new }
{
    let answer = solve_batch(batch, costs, choices, results, work);
    model::tell_count(answer, place, count)
}
