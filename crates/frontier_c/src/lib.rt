// The exports for C: each is the call of its name, under the same contract.
#![tactic(auto)]

ghost use Rattle.std.specs.Prelude.{◌≡◌};
ghost use Rattle.model.specs.Calls.{solve_outcome, list_outcome, cut_outcome, bound_outcome};
ghost use Rattle.text_networks.specs.Conversions.{to_text_outcome, from_text_outcome};
ghost use Rattle.frontier.specs.Says.{as_points, SolveExports, ListExports, CutExports, BoundExports};
ghost use Rattle.form_canonical.specs.Canonical.{canonical_outcome};
ghost use Rattle.cache_answers.specs.Outcomes.{cached_outcome};
ghost use Rattle.batch_frames.specs.Outcomes.{batch_outcome};
ghost use Rattle.frontier.specs.Says.{ConvertExports, CanonicalExports, CachedExports, BatchExports};
ghost use Rattle.frontier.specs.Version.{version};

#[unsafe(no_mangle)]
pub extern "C" fn frontier_version() -> u32
    ensures { result ≡ version }
{
    frontier::frontier_version()
}

#[unsafe(no_mangle)]
pub extern "C" fn frontier_solve(
    problem: &[u8],
    costs: &mut [u32],
    choices: &mut [u8],
    work: &mut [u32],
    place: &mut u32,
    count: &mut u32,
) -> u8
    ensures { SolveExports problem.now
        (solve_outcome problem.now costs.old choices.old work.old)
        costs.new choices.new work.new result place.new count.new }
{
    frontier::frontier_solve(problem, costs, choices, work, place, count)
}

#[unsafe(no_mangle)]
pub extern "C" fn frontier_solve_by_passes(
    problem: &[u8],
    costs: &mut [u32],
    choices: &mut [u8],
    work: &mut [u32],
    place: &mut u32,
    count: &mut u32,
) -> u8
    ensures { SolveExports problem.now
        (solve_outcome problem.now costs.old choices.old work.old)
        costs.new choices.new work.new result place.new count.new }
{
    frontier::frontier_solve_by_passes(problem, costs, choices, work, place, count)
}

// The plain call, and what its search took, of which nothing is promised: which form answered, plans, those of them
// that failed their test, passes, and opened partial choices.
#[unsafe(no_mangle)]
pub extern "C" fn frontier_solve_measured(
    problem: &[u8],
    costs: &mut [u32],
    choices: &mut [u8],
    work: &mut [u32],
    place: &mut u32,
    count: &mut u32,
    measures: &mut [u64; 8],
) -> u8
    ensures { SolveExports problem.now
        (solve_outcome problem.now costs.old choices.old work.old)
        costs.new choices.new work.new result place.new count.new }
{
    frontier::frontier_solve_measured(problem, costs, choices, work, place, count, measures)
}

#[unsafe(no_mangle)]
pub extern "C" fn frontier_points(
    problem: &[u8],
    points: &mut [model::Point],
    work: &mut [u32],
    place: &mut u32,
    count: &mut u32,
) -> u8
    ensures { ListExports problem.now
        (list_outcome problem.now (as_points points.old) work.old)
        points.new work.new result place.new count.new }
{
    frontier::frontier_points(problem, points, work, place, count)
}

#[unsafe(no_mangle)]
pub extern "C" fn frontier_bound(
    problem: &[u8],
    prefix: &[u8],
    least: &mut [u64; 4],
    place: &mut u32,
) -> u8
    ensures { BoundExports problem.now (bound_outcome problem.now prefix.now)
        result place.new least.new }
{
    frontier::frontier_bound(problem, prefix, least, place)
}

#[unsafe(no_mangle)]
pub extern "C" fn frontier_cut(
    problem: &[u8],
    sides: &[u8],
    costs: &mut [u32],
    choices: &mut [u8],
    work: &mut [u32],
    place: &mut u32,
    count: &mut u32,
    first: &mut u32,
    second: &mut u32,
) -> u8
    ensures { CutExports problem.now
        (cut_outcome problem.now sides.now
        costs.old choices.old work.old)
        costs.new choices.new work.new
        result place.new count.new first.new second.new }
{
    frontier::frontier_cut(
        problem, sides, costs, choices, work, place, count, first, second,
    )
}

#[unsafe(no_mangle)]
pub extern "C" fn frontier_to_text(
    problem: &[u8],
    text: &mut [u8],
    place: &mut u32,
    count: &mut u32,
) -> u8
    ensures { ConvertExports problem.now (to_text_outcome problem.now text.old)
        text.new result place.new count.new }
{
    frontier::frontier_to_text(problem, text, place, count)
}

#[unsafe(no_mangle)]
pub extern "C" fn frontier_from_text(
    text: &[u8],
    problem: &mut [u8],
    place: &mut u32,
    count: &mut u32,
) -> u8
    ensures { ConvertExports text.now (from_text_outcome text.now problem.old)
        problem.new result place.new count.new }
{
    frontier::frontier_from_text(text, problem, place, count)
}

#[unsafe(no_mangle)]
pub extern "C" fn frontier_canonical(
    problem: &[u8],
    form: &mut [u8],
    place: &mut u32,
    count: &mut u32,
    key: &mut u64,
) -> u8
    ensures { CanonicalExports problem.now
        (canonical_outcome problem.now form.old)
        form.new result place.new count.new key.new }
{
    frontier::frontier_canonical(problem, form, place, count, key)
}

#[unsafe(no_mangle)]
pub extern "C" fn frontier_solve_cached(
    problem: &[u8],
    costs: &mut [u32],
    choices: &mut [u8],
    work: &mut [u32],
    store: &mut [u8],
    place: &mut u32,
    count: &mut u32,
    hit: &mut u8,
) -> u8
    ensures { CachedExports problem.now
        (cached_outcome problem.now costs.old choices.old work.old
        store.old)
        costs.new choices.new work.new store.new
        result place.new count.new hit.new }
{
    frontier::frontier_solve_cached(problem, costs, choices, work, store, place, count, hit)
}

#[unsafe(no_mangle)]
pub extern "C" fn frontier_batch(
    batch: &[u8],
    costs: &mut [u32],
    choices: &mut [u8],
    results: &mut [u32],
    work: &mut [u32],
    place: &mut u32,
    count: &mut u32,
) -> u8
    ensures { BatchExports batch.now
        (batch_outcome batch.now costs.old choices.old results.old
        work.old)
        costs.new choices.new results.new work.new
        result place.new count.new }
{
    frontier::frontier_batch(batch, costs, choices, results, work, place, count)
}
