// The numbers of messages: the least that a part of a bucket holds, with its share of what all parts of the bucket have
// at least, and what they leave of it.
#![tactic(auto)]

ghost use Rattle.std.specs.Prelude.{ℕ, ◌<◌, ◌≤◌};
ghost use Rattle.branch_buckets.specs.Content.{Planned};
ghost use Rattle.plan_memory.specs.Arranged.{Loose};

// What is left of a bucket for its next part is at most this: the test of a plan has a higher limit.
const MOST_REST: u64 = 1152921504606846976;

// No sum is as large.
const NO_SUM: u64 = u64::MAX;

// A part of a bucket: the bucket's variable, the records and slots of the part, its message, and what the parts before
// it left for each value of the variable.
#[derive(Clone, Copy)]
struct Part {
    own: usize,
    span: branch_buckets::Span,
    shape: plan_shapes::Shape,
    rest: [u64; 64],
}

// The parts of a bucket whose messages are written but for their numbers: the bucket's variable, the records and slots
// before the first of them, and their messages from `from` to below `to`.
#[derive(Clone, Copy)]
pub struct Laid {
    pub own: usize,
    pub before: branch_buckets::Span,
    pub from: usize,
    pub to: usize,
}

// What the parts of a bucket share: how many of them are still to get a share, and what is still to be shared.
#[derive(Clone, Copy)]
struct Shares {
    senders: usize,
    total: [u64; 64],
}

// What the parts before left, and what the next ones share, if they do.
#[derive(Clone, Copy)]
struct Sharing {
    shares: Option<Shares>,
    rest: [u64; 64],
}

// The choice of zeros, but for the variables of a part: combination `c` of their values, the last of them fastest.
fn choice_of(scope: plan_shapes::Scope, c: usize) -> [u8; 24] {
    let zeros = [0u8; 24];
    let dv = scope.v.values;
    let dw = scope.w.values;
    if dv == 0 || dw == 0 {
        return zeros;
    }
    let x = branch_buckets::with_value(zeros, scope.w.number, c % dw % 8);
    let y = branch_buckets::with_value(x, scope.v.number, c / dw % dv % 8);
    branch_buckets::with_value(y, scope.u.number, c / dw / dv % 8)
}

// What a part holds for each value of the bucket's variable, at a choice of the others.
fn content_of(
    s: &[u8],
    sizes: &[u8],
    r: usize,
    part: Part,
    x: [u8; 24],
    d: branch_directions::Directions,
    plan: &[u32],
) -> [u64; 64]
    requires { Planned d r sizes.now s.now plan.now }
{
    let from = part.span.from;
    let to = part.span.to.min(r);
    let first = part.span.first;
    let last = part.span.last.min(layout::MAX_MESSAGES);
    let own = part.own;
    let n = sizes.len();
    let choice = &x[..n];
    if from <= to && first <= last && own < n && costs::prefix_ok(sizes, choice) {
        let span = branch_buckets::Span {
            from,
            to,
            first,
            last,
        };
        return branch_buckets::content(s, sizes, span, own, choice, d, plan);
    }
    [0u64; 64]
}

// The lesser of each number and of what `other` gives for its index, for the first `count`.
fn lowered<F: Fn(usize) -> u64>(mut low: [u64; 64], count: usize, other: F) -> [u64; 64]
    requires { (count ≤ 64) × ((i : ℕ) → i < 64 → F.pre other i) }
{
    for i in 0..count {
        low[i] = low[i].min(other(i));
    }
    low
}

// Entry `e` of a message for each value of the bucket's variable:
// the least over the combinations of values that the entry stands for.
fn entry_rows(
    s: &[u8],
    sizes: &[u8],
    r: usize,
    part: Part,
    e: usize,
    d: branch_directions::Directions,
    plan: &[u32],
) -> [u64; 64]
    requires { Planned d r sizes.now s.now plan.now × (e ≤ 512) }
{
    let count = 8 * plan_shapes::size_of(part.own, sizes);
    let rest = part.rest;
    let share = part.shape.share.min(plan_shapes::MOST_ENTRIES);
    let mut low = [NO_SUM; 64];
    for t in 0..share {
        let x = choice_of(part.shape.scope, e * share + t);
        let rows = content_of(s, sizes, r, part, x, d, plan);
        // no such sum wraps; were it to, the plan would fail its test. In two steps here and below, since the borrow
        // checker does not cover a call's result that goes straight into an array
        let next = lowered(low, count, |i| rest[i].wrapping_add(rows[i]));
        low = next;
    }
    low
}

// The least of the first `count` numbers in each of eight directions, at most what a message can hold.
pub fn least_numbers(rows: [u64; 64], count: usize) -> [u64; 8]
    requires { count ≤ 64 }
{
    let mut numbers = [u32::MAX as u64; 8];
    for i in 0..count {
        let j = i % 8;
        numbers[j] = numbers[j].min(rows[i]);
    }
    numbers
}

// The numbers of an entry: zeros at the place of what is worth nothing.
fn numbers_at(place: usize, rows: [u64; 64], count: usize) -> [u64; 8]
    requires { count ≤ 64 }
{
    if place == layout::NUMBERS_AT {
        return [0u64; 8];
    }
    least_numbers(rows, count)
}

// Writes entry `e` of a message.
pub fn put_entry(e: usize, place: usize, numbers: [u64; 8], width: usize, plan: &mut [u32])
    requires { (e ≤ 512) × (width ≤ 8) }
    ensures { Loose plan.old plan.new }
{
    let at = place.min(plan_memory::MOST_NUMBER) + width * e;
    for j in 0..width {
        plan_memory::put(at + j, numbers[j] as usize, plan);
    }
}

// Writes the numbers of a message, and answers what they leave of the part's content and of the rest before.
fn put_entries(
    s: &[u8],
    sizes: &[u8],
    r: usize,
    part: Part,
    d: branch_directions::Directions,
    plan: &mut [u32],
) -> [u64; 64]
    requires { Planned d r sizes.now s.now plan.old }
    ensures { Loose plan.old plan.new }
{
    let count = 8 * plan_shapes::size_of(part.own, sizes);
    let width = plan_shapes::width_of(d);
    let place = part.shape.place;
    let entries = part.shape.entries.min(plan_shapes::MOST_ENTRIES);
    let mut left = [MOST_REST; 64];
    for e in 0..entries {
        let rows = entry_rows(s, sizes, r, part, e, d, plan);
        let numbers = numbers_at(place, rows, count);
        put_entry(e, place, numbers, width, plan);
        // none of the numbers is larger than the rows'
        let next = lowered(left, count, |i| rows[i].wrapping_sub(numbers[i % 8]));
        left = next;
    }
    left
}

// The part of message `g`: its records and slots stand behind those of the part before.
fn part_at(g: usize, own: usize, before: branch_buckets::Span, sizes: &[u8], plan: &[u32]) -> Part {
    let at = layout::MESSAGES_AT + layout::MESSAGE_WIDTH * g.min(layout::MAX_MESSAGES);
    let span = branch_buckets::Span {
        from: before.to,
        to: branch_buckets::number_at(plan, at + 7),
        first: before.last,
        last: branch_buckets::number_at(plan, at + 8),
    };
    Part {
        own,
        span,
        shape: plan_shapes::shape_at(g, sizes, plan),
        rest: [0u64; 64],
    }
}

// What a part holds at least for each value of the bucket's variable: an entry that stands for all combinations of
// values.
fn part_least(
    s: &[u8],
    sizes: &[u8],
    r: usize,
    part: Part,
    d: branch_directions::Directions,
    plan: &[u32],
) -> [u64; 64]
    requires { Planned d r sizes.now s.now plan.now }
{
    let whole = Part {
        shape: plan_shapes::shape_over(part.shape.scope, 0, part.shape.place),
        rest: [0u64; 64],
        ..part
    };
    entry_rows(s, sizes, r, whole, 0, d, plan)
}

// How many of the parts send a message with variables.
fn count_senders(laid: Laid, sizes: &[u8], plan: &[u32]) -> usize {
    let to = laid.to.min(layout::MAX_MESSAGES);
    let mut senders = 0;
    for g in laid.from..to {
        if 1 < plan_shapes::shape_at(g, sizes, plan).entries {
            senders += 1;
        }
    }
    senders
}

// Sums of the numbers of two lists.
fn added(mut a: [u64; 64], b: [u64; 64]) -> [u64; 64] {
    for i in 0..64 {
        a[i] = a[i].wrapping_add(b[i]);
    }
    a
}

// What all parts have at least.
fn total_least(
    s: &[u8],
    sizes: &[u8],
    r: usize,
    laid: Laid,
    d: branch_directions::Directions,
    plan: &[u32],
) -> [u64; 64]
    requires { Planned d r sizes.now s.now plan.now }
{
    let to = laid.to.min(layout::MAX_MESSAGES);
    let mut before = laid.before;
    let mut total = [0u64; 64];
    for g in laid.from..to {
        let part = part_at(g, laid.own, before, sizes, plan);
        let next = added(total, part_least(s, sizes, r, part, d, plan));
        total = next;
        before = part.span;
    }
    total
}

// The parts share what they have at least, if several send a message with variables.
fn start_shares(
    s: &[u8],
    sizes: &[u8],
    r: usize,
    laid: Laid,
    d: branch_directions::Directions,
    plan: &[u32],
) -> Option<Shares>
    requires { Planned d r sizes.now s.now plan.now }
{
    let senders = count_senders(laid, sizes, plan);
    if senders < 2 {
        return None;
    }
    let total = total_least(s, sizes, r, laid, d, plan);
    Some(Shares { senders, total })
}

// What a part starts with: what the parts before it left, its share among so many of what all have at least, less what
// it has itself; no share where there is nobody. A number may be less than 0, but not with what the part holds.
fn with_share(mut shares: Shares, mut rest: [u64; 64], least: [u64; 64], among: u64) -> Sharing {
    for i in 0..64 {
        let share = shares.total[i].checked_div(among).unwrap_or(0);
        shares.total[i] = shares.total[i].wrapping_sub(share);
        rest[i] = rest[i].wrapping_add(share).wrapping_sub(least[i]);
    }
    Sharing {
        shares: Some(shares),
        rest,
    }
}

// What the part starts with.
fn start_part(
    s: &[u8],
    sizes: &[u8],
    r: usize,
    part: Part,
    d: branch_directions::Directions,
    sharing: Sharing,
    plan: &[u32],
) -> Sharing
    requires { Planned d r sizes.now s.now plan.now }
{
    let Some(shares) = sharing.shares else {
        return sharing;
    };
    let least = part_least(s, sizes, r, part, d, plan);
    if part.shape.entries < 2 || shares.senders == 0 {
        return with_share(shares, sharing.rest, least, 0);
    }
    let others = Shares {
        senders: shares.senders - 1,
        ..shares
    };
    with_share(others, sharing.rest, least, shares.senders as u64)
}

// Writes the numbers of a part's message.
fn put_part(
    s: &[u8],
    sizes: &[u8],
    r: usize,
    part: Part,
    d: branch_directions::Directions,
    sharing: Sharing,
    plan: &mut [u32],
) -> Sharing
    requires { Planned d r sizes.now s.now plan.old }
    ensures { Loose plan.old plan.new }
{
    let start = start_part(s, sizes, r, part, d, sharing, plan);
    let rest = start.rest;
    let left = put_entries(s, sizes, r, Part { rest, ..part }, d, plan);
    Sharing {
        shares: start.shares,
        rest: left,
    }
}

// Writes the numbers of the messages of all parts, and answers what they leave of the bucket.
pub fn put_parts(
    s: &[u8],
    sizes: &[u8],
    r: usize,
    laid: Laid,
    d: branch_directions::Directions,
    plan: &mut [u32],
) -> [u64; 64]
    requires { Planned d r sizes.now s.now plan.old }
    ensures { Loose plan.old plan.new }
{
    let to = laid.to.min(layout::MAX_MESSAGES);
    let mut sharing = Sharing {
        shares: start_shares(s, sizes, r, laid, d, plan),
        rest: [0u64; 64],
    };
    let mut before = laid.before;
    for g in laid.from..to {
        let part = part_at(g, laid.own, before, sizes, plan);
        sharing = put_part(s, sizes, r, part, d, sharing, plan);
        before = part.span;
    }
    sharing.rest
}
