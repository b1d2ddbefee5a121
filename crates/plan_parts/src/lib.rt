// The parts of a bucket: sets of a few earlier positions that cover what its records and messages read.
#![tactic(auto)]

ghost use Rattle.std.specs.Prelude.{◌≤◌};

// Parts of a bucket: so many sets of earlier positions, of at most `most` each; zeros behind them. A rule of the
// project, no heap: hence an array with its count beside it.
#[derive(Clone, Copy)]
pub struct Parts {
    pub most: u32,
    pub count: usize,
    pub sets: [u32; 64],
}

// Sees to it that a part covers the set, if there is place: the first part that can take it in does, or a new one.
fn cover(set: u32, parts: &mut Parts) {
    let most = parts.most;
    let count = parts.count;
    let made = &parts.sets[..count.min(64)];
    if made.iter().any(|part| *part | set == *part) {
        return;
    }
    let g = made
        .iter()
        .position(|part| (*part | set).count_ones() <= most)
        .unwrap_or(count);
    if g < 64 {
        parts.sets[g] |= set;
        parts.count = count.max(g + 1);
    }
}

// Parts for the records or slots from number `from` to below `to` with `size` positions besides `own`.
fn cover_all(
    listed: plan_memory::Listed<'_>,
    own: u32,
    size: u32,
    from: usize,
    to: usize,
    plan: &[u32],
    parts: &mut Parts,
) {
    for i in from..to {
        let set = plan_memory::scope_at(listed, i, plan) & !own;
        if set.count_ones() == size {
            cover(set, parts);
        }
    }
}

// The parts of a bucket with this span, large functions first: sets of at most `most` positions, two or three. `own` is
// its position. No record and no message reads more than two others.
pub fn make_parts(
    s: &[u8],
    own: u32,
    span: branch_buckets::Span,
    most: u32,
    plan: &[u32],
) -> Parts {
    let records = plan_memory::Listed::Records(s);
    let slots = plan_memory::Listed::Slots;
    let last = span.last.min(layout::MAX_MESSAGES);
    let mut parts = Parts {
        most,
        count: 0,
        sets: [0u32; 64],
    };
    for size in [2, 1, 0] {
        cover_all(records, own, size, span.from, span.to, plan, &mut parts);
        cover_all(slots, own, size, span.first, last, plan, &mut parts);
    }
    parts
}
