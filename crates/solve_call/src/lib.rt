// From the bytes of a problem to its frontier list: in the flat buffers, or in work memory to be copied out;
// or a refusal.
#![tactic(auto)]

ghost use Rattle.model.specs.Calls.{solve_outcome};
ghost use Rattle.answers.specs.Says.{SolveSays, ListedSays};

use listing::Form;
use model::Refusal;

// What the plain call answers, and what its search took, of which nothing is promised.
#[derive(Clone, Copy)]
pub struct Solved {
    pub answer: Result<u32, Refusal>,
    pub measures: listing::Measures,
}

// The frontier list in the flat buffers: costs, then choices, of one point after another;
// only by the first form of the search where that is asked for.
pub fn solve_with(
    problem: &[u8],
    costs: &mut [u32],
    choices: &mut [u8],
    work: &mut [u32],
    form: Form,
) -> Solved
    ensures { SolveSays
        (solve_outcome problem.now costs.old choices.old work.old)
        costs.new choices.new work.new result.answer }
{
    let q = match answers::open_problem(problem, work.len()) {
        Ok(q) => q,
        Err(refusal) => {
            let measures = listing::unmeasured();
            return Solved {
                answer: Err(refusal),
                measures,
            };
        }
    };
    let head = q.head;
    let room = answers::flat_room(head, costs.len(), choices.len());
    let searched = listing::find_list(problem, q, room, form, work);
    let found = searched.found;
    let measures = searched.measures;
    answers::copy_out(head, found.unwrap_or(0), costs, choices, work);
    let answer = answers::answer_of(found);
    Solved { answer, measures }
}

// Which form of the search answered: 1 or 2, and 0 where neither was asked.
fn form_of(m: listing::Measures) -> u64 {
    match m.answered {
        None => 0,
        Some(Form::First) => 1,
        Some(Form::Second) => 2,
    }
}

// What a search took, for C: which form answered, plans, those of them that failed their test, passes, opened partial
// choices, and zeros.
pub fn tell_measures(m: listing::Measures, measures: &mut [u64; 8]) {
    measures[0] = form_of(m);
    measures[1] = m.plans;
    measures[2] = m.failed;
    measures[3] = m.passes;
    measures[4] = m.opened;
    measures[5] = 0;
    measures[6] = 0;
    measures[7] = 0;
}

// The frontier list in work memory, where it has no more points than `room` and 64; after 15 work memory is cleared.
pub fn list_rows(problem: &[u8], room: usize, work: &mut [u32]) -> Result<answers::Listed, Refusal>
    ensures { ListedSays problem.now room work.old work.new result }
{
    let q = answers::open_problem(problem, work.len())?;
    let searched = listing::find_list(problem, q, rows_out::room_for(room), Form::Second, work);
    answers::found_rows(q.head, searched.found, work)
}
