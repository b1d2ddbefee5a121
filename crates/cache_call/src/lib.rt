// The cached call: from bytes to the frontier list that the store holds, or that is found and stored; or a refusal.
#![tactic(auto)]

ghost use Rattle.std.specs.Prelude.{◌<◌, true, false};
ghost use Rattle.cache_answers.specs.Stores.{slots_in};
ghost use Rattle.cache_answers.specs.Outcomes.{cached_outcome};
ghost use Rattle.cache_answers.specs.Says.{CachedSays};
ghost use Rattle.cache_call.specs.Steps.{cached, Counted, NotHeld, held_outcome, fresh_outcome};

use cache_answers::Cached;
use model::{Reason, Refusal};

// The least length of a store: one slot.
const LEAST_STORE: usize = 63000;

// The frontier list in the flat buffers, from the store where it holds the problem in any layout.
pub fn solve_cached(
    problem: &[u8],
    costs: &mut [u32],
    choices: &mut [u8],
    work: &mut [u32],
    store: &mut [u8],
) -> Cached
    ensures { CachedSays
        (cached_outcome problem.now costs.old choices.old work.old
        store.old)
        costs.new choices.new work.new store.new result }
{
    let q = match answers::open_problem(problem, work.len()) {
        Ok(q) => q,
        Err(refusal) => {
            return Cached {
                answer: Err(refusal),
                hit: false,
            };
        }
    };
    if store.len() < LEAST_STORE {
        return Cached {
            answer: Err(Reason::Store.at(0)),
            hit: false,
        };
    }
    let head = q.head;
    let n = head.variables as usize;
    let mut form = [0u8; 60000];
    form_call::put_form(problem, head, &q.sizes[..n], &mut form);
    let form = &form[..problem.len()];
    match cache_store::find_form(store, form) {
        Some(k) => {
            let answer = answer_held(store, k, head, costs, choices, work);
            Cached { answer, hit: true }
        }
        None => {
            let answer = answer_anew(problem, form, head, costs, choices, work, store);
            Cached { answer, hit: false }
        }
    }
}

// A hit: the answer that slot `k` holds, by the caller's room. Work memory is cleared, as if the problem were solved.
fn answer_held(
    store: &[u8],
    k: usize,
    head: model::Header,
    costs: &mut [u32],
    choices: &mut [u8],
    work: &mut [u32],
) -> Result<u32, Refusal>
    requires { (k < slots_in store.now) × Counted head }
    ensures { CachedSays
        (held_outcome head costs.old choices.old work.old store.now k)
        costs.new choices.new work.new store.now (cached result true) }
{
    rows_out::clear(work);
    let n = head.variables as usize;
    let p = head.objectives as usize;
    let points = cache_store::count_in(store, k);
    let room = answers::flat_room(head, costs.len(), choices.len());
    let is_short = room < points;
    if is_short {
        return Err(Reason::Full.at(0));
    }
    cache_store::load_costs(store, k, points * p, costs);
    cache_store::load_choices(store, k, points * n, choices);
    Ok(points as u32)
}

// No hit: the problem is solved with room for 64 points, and its answer is stored, whatever the caller's room.
// Nothing is written to the store before the solve: a longer list is not stored.
fn answer_anew(
    problem: &[u8],
    form: &[u8],
    head: model::Header,
    costs: &mut [u32],
    choices: &mut [u8],
    work: &mut [u32],
    store: &mut [u8],
) -> Result<u32, Refusal>
    requires { NotHeld problem.now form.now head work.old store.old }
    ensures { CachedSays
        (fresh_outcome problem.now form.now costs.old choices.old
        work.old store.old)
        costs.new choices.new work.new store.new (cached result false) }
{
    let mut found_costs = [0u32; 256];
    let mut found_choices = [0u8; 1536];
    let solved = solve_call::solve_with(
        problem,
        &mut found_costs,
        &mut found_choices,
        work,
        listing::Form::Second,
    );
    let count = solved.answer?;
    let points = count as usize;
    let c = points * head.objectives as usize;
    let x = points * head.variables as usize;
    cache_store::save(store, form, points, &found_costs[..c], &found_choices[..x]);
    if answers::flat_room(head, costs.len(), choices.len()) < points {
        return Err(Reason::Full.at(0));
    }
    costs[..c].copy_from_slice(&found_costs[..c]);
    choices[..x].copy_from_slice(&found_choices[..x]);
    Ok(count)
}
