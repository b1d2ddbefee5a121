// From the bytes of a problem and a prefix to the bound in each objective; or a refusal.
#![tactic(auto)]

ghost use Rattle.std.specs.Prelude.{◌≡◌, ◌<◌, replicate};
ghost use Rattle.model.specs.Limits.{max_objectives, word_end};
ghost use Rattle.model.specs.Reasons.{told, value_or};
ghost use Rattle.bound_call.specs.Says.{BoundSays};

use model::{Reason, Refusal};

// The bound of a prefix: for each objective the sum of the least entries that agree with it.
#[tactic(auto, using(crate::proofs::BoundAnswers::refused_answer))]
pub fn bound_of(problem: &[u8], prefix: &[u8]) -> Result<[u64; 4], Refusal>
    ensures { BoundSays problem.now prefix.now result }
{
    let q = match problem::read_problem(problem) {
        Ok(q) => q,
        Err(refusal) => return Err(refusal),
    };
    let head = q.head;
    let n = head.variables as usize;
    let sizes = &q.sizes[..n];
    if !costs::prefix_ok(sizes, prefix) {
        return Err(Reason::Prefix.at(0));
    }
    let start = problem::tables_start(head);
    Ok(costs::bounds_of(problem, start, head.tables, sizes, prefix))
}

// The answer for C: the number is the result, bound and place go through references; zeros where it is refused.
pub fn tell_bound(bound: Result<[u64; 4], Refusal>, least: &mut [u64; 4], place: &mut u32) -> u8
    ensures number { result ≡ (told bound).number }
    ensures least { least.new ≡ value_or (replicate max_objectives 0) bound }
    ensures place { (told bound).place < word_end → place.new ≡ (told bound).place }
{
    match bound {
        Ok(sums) => {
            *least = sums;
            *place = 0;
            0
        }
        Err(refusal) => {
            *least = [0u64; 4];
            refusal.tell(place)
        }
    }
}
