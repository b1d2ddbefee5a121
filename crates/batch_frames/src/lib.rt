// The frames and areas of a batch of problems, and what the batch call answers: definitions and theorems; reading the
// frames, and what is refused before any solving.
#![tactic(auto)]

ghost use Rattle.std.specs.Prelude.{◌≡◌, [], ◌∷◌, ◌+◌, ◌*◌, ◌≤◌, ◌<◌, length};
ghost use Rattle.model.specs.Limits.{word_end};
ghost use Rattle.model.specs.Reasons.{told, value_or};
ghost use Rattle.batch_frames.specs.Batches.{max_batch};
ghost use Rattle.batch_frames.specs.Outcomes.{result_area, areas_ok};
ghost use Rattle.batch_frames.specs.Says.{FrameSays, FramesSays, JudgedSays, in_area};

use model::{Reason, Refusal};

// The most problems of a batch.
const MAX_BATCH: usize = 16;

// The bytes of a frame before its problem.
pub const FRAME_HEAD: usize = 6;

// A problem's areas: numbers of the cost buffer, bytes of the choice buffer, numbers of the result list.
pub const COST_AREA: usize = 256;

pub const CHOICE_AREA: usize = 1536;

const RESULT_AREA: usize = 3;

// The least length of a work buffer.
const LEAST_WORK: usize = 8192;

// How many bytes the problem has in the frame that starts some bytes, if that frame is whole. Its length is compared
// with the bytes that are left.
pub fn frame_of(s: &[u8]) -> Option<usize>
    ensures { FrameSays s.now result }
{
    if s.len() < FRAME_HEAD {
        return None;
    }
    if s[0] != b'B' {
        return None;
    }
    if s[1] != b'P' {
        return None;
    }
    let size = problem::four_at(s, 2) as usize;
    if s.len() - FRAME_HEAD < size {
        return None;
    }
    Some(size)
}

// How many frames a batch has, if they make up all of it, 16 at most.
pub fn frames_of(batch: &[u8]) -> Option<usize>
    ensures { FramesSays batch.now result }
{
    let mut at: usize = 0;
    let mut count: usize = 0;
    while at < batch.len() {
        let is_full = count == MAX_BATCH;
        if is_full {
            return None;
        }
        let size = frame_of(&batch[at..])?;
        at += FRAME_HEAD + size;
        count += 1;
    }
    Some(count)
}

// Whether buffers of these lengths have areas for so many problems.
fn areas_fit(count: usize, costs: usize, choices: usize, results: usize) -> bool
    requires { count ≤ max_batch }
    ensures { result ≡ areas_ok count costs choices results }
{
    if costs < COST_AREA * count {
        return false;
    }
    if choices < CHOICE_AREA * count {
        return false;
    }
    RESULT_AREA * count <= results
}

// Judges a batch before any of its problems is looked at, by the lengths of the lent buffers: how many problems it has,
// or what is refused of the whole.
pub fn judge(
    batch: &[u8],
    costs: usize,
    choices: usize,
    results: usize,
    memory: usize,
) -> Result<usize, Reason>
    ensures { JudgedSays batch.now costs choices results memory result }
{
    let Some(count) = frames_of(batch) else {
        return Err(Reason::Batch);
    };
    if !areas_fit(count, costs, choices, results) {
        return Err(Reason::Batch);
    }
    let is_short = memory < LEAST_WORK;
    if is_short {
        return Err(Reason::Work);
    }
    Ok(count)
}

// Number, place and count of problem `k` in its area of the result list.
pub fn put_result(results: &mut [u32], k: usize, answer: Result<u32, Refusal>)
    requires { (k < max_batch) × (result_area * k + result_area ≤ length results.old) }
    ensures { (told answer).place < word_end → results.new
        ≡ in_area result_area k
        ((told answer).number ∷ (told answer).place ∷ value_or 0 answer ∷ [])
        results.old }
{
    let mut place = 0;
    let mut count = 0;
    let number = model::tell_count(answer, &mut place, &mut count);
    let at = RESULT_AREA * k;
    results[at] = u32::from(number);
    results[at + 1] = place;
    results[at + 2] = count;
}
