// From the bytes of a problem and a side list to the frontier list by the cut, in the flat buffers; or a refusal.
#![tactic(auto)]

ghost use Rattle.model.specs.Calls.{cut_outcome};
ghost use Rattle.answers.specs.Cuts.{CutSays};

use model::Refusal;

// The frontier list by the cut: that of the uncut problem, for any side list that no record has on both sides.
pub fn cut_problem(
    problem: &[u8],
    sides: &[u8],
    costs: &mut [u32],
    choices: &mut [u8],
    work: &mut [u32],
) -> Result<answers::Halves, Refusal>
    ensures { CutSays
        (cut_outcome problem.now sides.now
        costs.old choices.old work.old)
        costs.new choices.new work.new result }
{
    let q = answers::open_cut(problem, sides, work.len())?;
    let head = q.head;
    let room = answers::flat_room(head, costs.len(), choices.len());
    let lists = cut_halves::cut_lists(problem, q, sides, room, work);
    answers::copy_out(head, answers::points_in(lists), costs, choices, work);
    answers::halves_of(lists)
}
