// What the calls that list the frontier answer, before a search and behind it: refusals, the room, the list copied out
// of work memory, and the answers.
#![tactic(auto)]

ghost use Rattle.std.specs.Prelude.{◌≡◌, ◌≤◌, ◌<◌, Option, IfOk, length, replicate};
ghost use Rattle.model.specs.Basics.{pick};
ghost use Rattle.model.specs.Limits.{max_points, word_end};
ghost use Rattle.model.specs.Reasons.{told, value_or};
ghost use Rattle.problem.specs.Says.{Reads};
ghost use Rattle.pass_list.specs.Says.{is_full, count_of};
ghost use Rattle.answers.specs.Early.{early_of};
ghost use Rattle.answers.specs.Says.{room_in, found_answer, CopyAsked, CopiedOut, found_rows};
ghost use Rattle.answers.specs.Cuts.{cut_refusal, points_in, FewEach, no_halves, found_halves};

use model::{Reason, Refusal};
use problem::Problem;

// The least length of a work buffer.
pub const LEAST_WORK: usize = 8192;

// A problem that is read, to be searched with `memory` numbers of work memory; or what is refused before a search.
#[tactic(auto, using(crate::proofs::Early::read_refused))]
pub fn open_problem(problem: &[u8], memory: usize) -> Result<Problem, Refusal>
    ensures verdict { told result ≡ early_of problem.now memory }
    ensures problem { IfOk result (λ q. Reads problem.now q) }
{
    let q = problem::read_problem(problem)?;
    if memory < LEAST_WORK {
        return Err(Reason::Work.at(0));
    }
    Ok(q)
}

// Room: how many points of a problem with this header flat buffers of these lengths hold, 64 at most.
pub fn flat_room(head: model::Header, costs: usize, choices: usize) -> usize
    requires { (1 ≤ head.objectives) × (1 ≤ head.variables) }
    ensures { result ≡ room_in head costs choices }
{
    let n = head.variables as usize;
    let p = head.objectives as usize;
    rows_out::room_of(costs, choices, p, n)
}

// The first `count` rows of work memory in the flat buffers: costs, then choices, of one point after another.
// Work memory is cleared.
pub fn copy_out(
    head: model::Header,
    count: usize,
    costs: &mut [u32],
    choices: &mut [u8],
    work: &mut [u32],
)
    requires { CopyAsked head.objectives head.variables count costs.old choices.old work.old }
    ensures { CopiedOut head.objectives head.variables count
        costs.old choices.old work.old
        costs.new choices.new work.new }
{
    let n = head.variables as usize;
    let p = head.objectives as usize;
    rows_out::copy_costs(work, count, n, p, costs);
    rows_out::copy_choices(work, count, n, p, choices);
    rows_out::clear(work);
}

// The plain call's answer, by what was found.
pub fn answer_of(found: Option<usize>) -> Result<u32, Refusal>
    requires { count_of found ≤ max_points }
    ensures { result ≡ found_answer found }
{
    match found {
        Some(count) => Ok(count as u32),
        None => Err(Reason::Full.at(0)),
    }
}

// A list in work memory: the count of points, and how many costs and choices each has.
#[derive(Clone, Copy)]
pub struct Listed {
    pub count: usize,
    pub objectives: usize,
    pub variables: usize,
}

// A list in work memory, by what was found; where it is longer than the room, work memory is cleared.
pub fn found_rows(
    head: model::Header,
    found: Option<usize>,
    work: &mut [u32],
) -> Result<Listed, Refusal>
    ensures { (result ≡ found_rows head found)
        × (work.new
        ≡ pick (is_full found) (replicate (length work.old) 0) work.old) }
{
    match found {
        Some(count) => Ok(Listed {
            count,
            objectives: head.objectives as usize,
            variables: head.variables as usize,
        }),
        None => {
            rows_out::clear(work);
            Err(Reason::Full.at(0))
        }
    }
}

// A problem that is read, to be cut by a side list with `memory` numbers of work memory; or what the cut call refuses
// before it searches.
pub fn open_cut(problem: &[u8], sides: &[u8], memory: usize) -> Result<Problem, Refusal>
    ensures verdict { told result ≡ cut_refusal problem.now sides.now memory }
    ensures problem { IfOk result (λ q. Reads problem.now q) }
{
    let q = open_problem(problem, memory)?;
    let head = q.head;
    let n = head.variables as usize;
    if !views::sides_ok(sides, n) {
        return Err(Reason::Sides.at(0));
    }
    let start = problem::tables_start(head);
    views::first_linked(problem, start, head.tables, &q.sizes[..n], sides)?;
    Ok(q)
}

// What the cut finds where no list is longer than its room: how many points the list has, and how many each half.
#[derive(Clone, Copy)]
pub struct Lists {
    pub count: usize,
    pub first: usize,
    pub second: usize,
}

// How many points the cut found: none where a list is too long.
pub fn points_in(lists: Option<Lists>) -> usize
    ensures { result ≡ points_in lists }
{
    match lists {
        Some(lists) => lists.count,
        None => 0,
    }
}

// What the cut call answers: the count of points, and how many each half has.
#[derive(Clone, Copy)]
pub struct Halves {
    pub count: u32,
    pub first: u32,
    pub second: u32,
}

// The cut call's answer, by what was found.
pub fn halves_of(lists: Option<Lists>) -> Result<Halves, Refusal>
    requires { FewEach lists }
    ensures { result ≡ found_halves lists }
{
    match lists {
        Some(lists) => Ok(Halves {
            count: lists.count as u32,
            first: lists.first as u32,
            second: lists.second as u32,
        }),
        None => Err(Reason::Full.at(0)),
    }
}

// The cut call's answer for C: the number is the result, the others go through references.
pub fn tell_halves(
    answer: Result<Halves, Refusal>,
    place: &mut u32,
    count: &mut u32,
    first: &mut u32,
    second: &mut u32,
) -> u8
    ensures number { result ≡ (told answer).number }
    ensures place { (told answer).place < word_end → place.new ≡ (told answer).place }
    ensures count { count.new ≡ (value_or no_halves answer).count }
    ensures first { first.new ≡ (value_or no_halves answer).first }
    ensures second { second.new ≡ (value_or no_halves answer).second }
{
    match answer {
        Ok(halves) => {
            *place = 0;
            *count = halves.count;
            *first = halves.first;
            *second = halves.second;
            0
        }
        Err(refusal) => {
            *count = 0;
            *first = 0;
            *second = 0;
            refusal.tell(place)
        }
    }
}
