// The batch call: from a batch of problems to what single calls in turn give, each on its areas; or a refusal.
#![tactic(auto)]

ghost use Rattle.batch_frames.specs.Batches.{batch_of};
ghost use Rattle.batch_frames.specs.Outcomes.{in_turn, batch_outcome};
ghost use Rattle.batch_frames.specs.Statements.{Taken};
ghost use Rattle.batch_call.specs.Says.{BatchSays};
ghost use Rattle.batch_call.specs.Steps.{Asked, Solved, LeftBy};

use model::Refusal;

// The frontier lists of up to 16 problems, each in its areas, with number, place and count in the result list.
// Whatever is refused of the whole is refused before any solving.
pub fn solve_batch(
    batch: &[u8],
    costs: &mut [u32],
    choices: &mut [u8],
    results: &mut [u32],
    work: &mut [u32],
) -> Result<u32, Refusal>
    ensures { BatchSays
        (batch_outcome batch.now costs.old choices.old results.old
        work.old)
        costs.new choices.new results.new work.new result }
{
    match batch_frames::judge(batch, costs.len(), choices.len(), results.len(), work.len()) {
        Ok(count) => {
            solve_frames(batch, costs, choices, results, work);
            Ok(count as u32)
        }
        Err(reason) => Err(reason.at(0)),
    }
}

// Single calls in turn.
fn solve_frames(
    batch: &[u8],
    costs: &mut [u32],
    choices: &mut [u8],
    results: &mut [u32],
    work: &mut [u32],
)
    requires { Taken batch.now costs.old choices.old results.old work.old }
    ensures { LeftBy
        (in_turn (batch_of batch.now) costs.old choices.old results.old
        work.old)
        costs.new choices.new results.new work.new }
{
    let mut at: usize = 0;
    let mut k: usize = 0;
    while at < batch.len() {
        at += solve_frame(&batch[at..], k, costs, choices, results, work);
        k += 1;
    }
}

// The single call for the problem in the frame that starts `rest`, on the areas of problem `k`; how long the frame is.
fn solve_frame(
    rest: &[u8],
    k: usize,
    costs: &mut [u32],
    choices: &mut [u8],
    results: &mut [u32],
    work: &mut [u32],
) -> usize
    requires { Asked rest.now k costs.old choices.old results.old }
    ensures { Solved rest.now k
        costs.old choices.old results.old work.old
        costs.new choices.new results.new work.new result }
{
    let size = batch_frames::frame_of(rest).unwrap_or(0);
    let end = batch_frames::FRAME_HEAD + size;
    let c = batch_frames::COST_AREA * k;
    let x = batch_frames::CHOICE_AREA * k;
    let solved = solve_call::solve_with(
        &rest[batch_frames::FRAME_HEAD..end],
        &mut costs[c..c + batch_frames::COST_AREA],
        &mut choices[x..x + batch_frames::CHOICE_AREA],
        work,
        listing::Form::Second,
    );
    batch_frames::put_result(results, k, solved.answer);
    end
}
