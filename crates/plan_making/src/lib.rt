// Makes a plan: the search order, the records by position, and the messages. Nothing is promised of it but that no
// record and no message is lost: crate plan_test tests it.
#![tactic(auto)]

ghost use Rattle.std.specs.Prelude.{◌≡◌, ◌≤◌, ◌<◌, length, take, drop};
ghost use Rattle.model.specs.Basics.{All};
ghost use Rattle.model.specs.Limits.{max_variables, max_tables};
ghost use Rattle.problem.specs.Records.{Whole};
ghost use Rattle.layout.specs.Places.{numbers_at, max_messages, children_at};
ghost use Rattle.branch_buckets.specs.Messages.{count_from};
ghost use Rattle.branch_buckets.specs.Sound.{Rearranged};
ghost use Rattle.branch_buckets.specs.Content.{Planned};
ghost use Rattle.branch_directions.specs.Directions.{Sensible};
ghost use Rattle.plan_memory.specs.Arranged.{Loose, Arranged};

// How a plan is made: which order it has, and where it is wide, parts may have three positions.
#[derive(Clone, Copy)]
pub struct Making {
    pub order: plan_order::Order,
    pub wide: bool,
}

// Parts of three positions may need so many even shares of the room.
const MOST_SHARES: usize = 2;

// How far the plan is made: records and slots that have a part, messages sent, where the next numbers go, and what is
// left of the bucket's content for each value.
#[derive(Clone, Copy)]
struct Made {
    records: usize,
    slots: usize,
    messages: usize,
    numbers: usize,
    rest: [u64; 64],
}

// A bucket: its position, whether its parts may have three positions, and its records and slots.
#[derive(Clone, Copy)]
struct Bucket {
    position: usize,
    wide: bool,
    span: branch_buckets::Span,
}

// A part of a bucket that is to be sent: over the positions of `set`, and whether it is the bucket's last one.
#[derive(Clone, Copy)]
struct Wanted {
    bucket: Bucket,
    set: u32,
    is_last: bool,
}

// Writes where the records, the slots and the messages of the positions from `k` on end.
fn put_ends(k: usize, records: usize, slots: usize, messages: usize, plan: &mut [u32])
    requires { k ≤ max_variables }
    ensures { Loose plan.old plan.new }
{
    plan_memory::put(layout::RECORD_ENDS_AT + k, records, plan);
    plan_memory::put(layout::CHILD_ENDS_AT + k, slots, plan);
    plan_memory::put(layout::MESSAGE_ENDS_AT + k, messages, plan);
}

// Whether there is a message for one more part of position `k`. Messages are kept back for each position up to it: for
// two parts and a constant.
// A plan without room for a row of zeros has no messages.
fn may_send(g: usize, k: usize, plan: &[u32]) -> bool
    requires { k < max_variables }
{
    8 <= plan_shapes::room_from(layout::NUMBERS_AT, plan)
        && g.min(layout::MAX_MESSAGES) + 3 * k + 1 < layout::MAX_MESSAGES
}

// How many numbers the messages of parts have where each has all its variables.
fn numbers_for(parts: plan_parts::Parts, width: usize, sizes: &[u8], plan: &[u32]) -> usize
    requires { width ≤ 8 }
{
    let mut numbers = 0;
    for &set in &parts.sets[..parts.count.min(64)] {
        numbers += plan_shapes::numbers_over(set, width, sizes, plan);
    }
    numbers
}

// Whether position `k` may send a message for each part, with all its variables. They may need twice the position's
// even share of the room: the positions before it need room too.
fn may_send_all(
    parts: plan_parts::Parts,
    k: usize,
    width: usize,
    made: Made,
    sizes: &[u8],
    plan: &[u32],
) -> bool
    requires { (k < max_variables) × (width ≤ 8) }
{
    let count = parts.count.min(64);
    if count == 0 {
        return true;
    }
    let last = made.messages.min(layout::MAX_MESSAGES) + (count - 1);
    if !may_send(last, k, plan) {
        return false;
    }
    let room = plan_shapes::room_for(k, made.numbers, width, plan);
    let numbers = numbers_for(parts, width, sizes, plan);
    numbers <= room && numbers / MOST_SHARES <= room / (k + 1)
}

// The parts of a bucket: of at most three positions where that is wanted and all messages can have all their variables,
// and otherwise of at most two.
fn parts_of(
    s: &[u8],
    sizes: &[u8],
    bucket: Bucket,
    d: branch_directions::Directions,
    made: Made,
    plan: &[u32],
) -> plan_parts::Parts
    requires { Sensible d × (bucket.position < max_variables) }
{
    let k = bucket.position;
    let span = bucket.span;
    let own = plan_memory::bit(k);
    if bucket.wide {
        let parts = plan_parts::make_parts(s, own, span, 3, plan);
        if may_send_all(parts, k, plan_shapes::width_of(d), made, sizes, plan) {
            return parts;
        }
    }
    plan_parts::make_parts(s, own, span, 2, plan)
}

// Writes the message of a part but for its numbers: of the bucket's records and slots from those made on it has those
// that it covers.
fn lay_part(
    s: &[u8],
    sizes: &[u8],
    r: usize,
    wanted: Wanted,
    d: branch_directions::Directions,
    made: Made,
    plan: &mut [u32],
) -> Made
    requires { Planned d r sizes.now s.now plan.old × (wanted.bucket.position < max_variables) }
    ensures { Arranged r plan.old plan.new }
{
    let bucket = wanted.bucket;
    let k = bucket.position;
    let all = bucket.span;
    let set = wanted.set;
    let from = made.records;
    let first = made.slots;
    let g = made.messages;
    if !may_send(g, k, plan) {
        return made;
    }
    let allowed = set | plan_memory::bit(k);
    let to = plan_memory::gather_records(s, 0, allowed, from, all.to, r, plan);
    let last = plan_memory::gather_slots(0, allowed, first, all.last, r, plan);
    let width = plan_shapes::width_of(d);
    let at = made.numbers;
    let shape = plan_shapes::choose_shape(k, set, wanted.is_last, at, width, sizes, plan);
    plan_shapes::put_message(g, shape, to, last, plan);
    Made {
        records: to,
        slots: last,
        messages: g.min(layout::MAX_MESSAGES) + 1,
        numbers: plan_shapes::numbers_end(shape, at, width),
        ..made
    }
}

// The same for all parts of a bucket.
fn lay_parts(
    s: &[u8],
    sizes: &[u8],
    r: usize,
    bucket: Bucket,
    d: branch_directions::Directions,
    made: Made,
    plan: &mut [u32],
) -> Made
    requires { Planned d r sizes.now s.now plan.old × (bucket.position < max_variables) }
    ensures { Arranged r plan.old plan.new }
{
    let parts = parts_of(s, sizes, bucket, d, made, plan);
    let count = parts.count.min(64);
    let mut laid = made;
    for (g, &set) in parts.sets[..count].iter().enumerate() {
        let wanted = Wanted {
            bucket,
            set,
            is_last: g + 1 == count,
        };
        laid = lay_part(s, sizes, r, wanted, d, laid, plan);
    }
    laid
}

// Sends the messages of all parts of a bucket.
fn send_parts(
    s: &[u8],
    sizes: &[u8],
    r: usize,
    bucket: Bucket,
    d: branch_directions::Directions,
    made: Made,
    plan: &mut [u32],
) -> Made
    requires { Planned d r sizes.now s.now plan.old × (bucket.position < max_variables) }
    ensures { Arranged r plan.old plan.new }
{
    let from = made.records;
    let first = made.slots;
    let before = branch_buckets::Span {
        from,
        to: from,
        first,
        last: first,
    };
    let end = lay_parts(s, sizes, r, bucket, d, made, plan);
    let laid = plan_numbers::Laid {
        own: branch_buckets::variable_at(bucket.position, plan),
        before,
        from: made.messages,
        to: end.messages,
    };
    let rest = plan_numbers::put_parts(s, sizes, r, laid, d, plan);
    Made {
        records: end.records,
        slots: end.slots,
        messages: end.messages,
        numbers: end.numbers,
        rest,
    }
}

// Whether the first `width` numbers are 0.
fn are_zero(numbers: [u64; 8], width: usize) -> bool
    requires { width ≤ 8 }
{
    numbers[..width].iter().all(|&x| x == 0)
}

// Sends what is left of the bucket of position `k` at every value, as a constant.
fn send_constant(
    k: usize,
    sizes: &[u8],
    d: branch_directions::Directions,
    made: Made,
    plan: &mut [u32],
) -> Made
    requires { Sensible d × (k < max_variables) }
    ensures { Loose plan.old plan.new }
{
    let g = made.messages;
    let at = made.numbers;
    let width = plan_shapes::width_of(d);
    let numbers = plan_numbers::least_numbers(
        made.rest,
        8 * plan_shapes::size_of(branch_buckets::variable_at(k, plan), sizes),
    );
    let is_worth = g < layout::MAX_MESSAGES
        && width <= plan_shapes::room_from(at, plan)
        && !are_zero(numbers, width);
    if !is_worth {
        return made;
    }
    let shape = plan_shapes::constant_shape(at);
    let end = plan_shapes::numbers_end(shape, at, width);
    plan_numbers::put_entry(0, at, numbers, width, plan);
    plan_shapes::put_message(g, shape, made.records, made.slots, plan);
    Made {
        messages: g + 1,
        numbers: end,
        ..made
    }
}

// Position `k` takes the records and the messages that only earlier positions share with it.
fn take_bucket(s: &[u8], r: usize, k: usize, wide: bool, made: Made, plan: &mut [u32]) -> Bucket
    requires { r ≤ max_tables }
    ensures { Arranged r plan.old plan.new × (result.position ≡ k) }
{
    let own = plan_memory::bit(k);
    let from = made.records;
    let first = made.slots;
    let to = plan_memory::gather_records(s, own, 4294967295, from, r, r, plan);
    let last = plan_memory::gather_slots(own, 4294967295, first, made.messages, r, plan);
    let span = branch_buckets::Span {
        from,
        to,
        first,
        last,
    };
    Bucket {
        position: k,
        wide,
        span,
    }
}

// A bucket sends its messages.
fn make_bucket(
    s: &[u8],
    sizes: &[u8],
    r: usize,
    bucket: Bucket,
    d: branch_directions::Directions,
    made: Made,
    plan: &mut [u32],
) -> Made
    requires { Planned d r sizes.now s.now plan.old × (bucket.position < max_variables) }
    ensures { Arranged r plan.old plan.new }
{
    let k = bucket.position;
    let span = bucket.span;
    let sent = send_parts(s, sizes, r, bucket, d, made, plan);
    let end = send_constant(k, sizes, d, sent, plan);
    put_ends(k, span.to, span.last, end.messages, plan);
    Made {
        records: span.to,
        slots: span.last,
        messages: end.messages,
        numbers: end.numbers,
        rest: [0u64; 64],
    }
}

// The buckets of all positions, from the last to the first.
// The first numbers are the zeros of messages that are worth nothing.
fn make_buckets(
    s: &[u8],
    sizes: &[u8],
    r: usize,
    d: branch_directions::Directions,
    wide: bool,
    plan: &mut [u32],
)
    requires { Planned d r sizes.now s.now plan.old }
    ensures { Arranged r plan.old plan.new }
{
    let n = sizes.len();
    put_ends(n, 0, 0, 0, plan);
    let mut made = Made {
        records: 0,
        slots: 0,
        messages: 0,
        numbers: layout::NUMBERS_AT + 8,
        rest: [0u64; 64],
    };
    for k in (0..n).rev() {
        let bucket = take_bucket(s, r, k, wide, made, plan);
        made = make_bucket(s, sizes, r, bucket, d, made, plan);
    }
    plan_memory::put(layout::MESSAGE_ENDS_AT, layout::MAX_MESSAGES, plan);
    end_messages(made, plan);
}

// The messages that are left over are worth nothing.
fn end_messages(made: Made, plan: &mut [u32])
    ensures { Loose plan.old plan.new }
{
    let shape = plan_shapes::constant_shape(plan_memory::MOST_NUMBER);
    for g in made.messages..layout::MAX_MESSAGES {
        plan_shapes::put_message(g, shape, made.records, made.slots, plan);
    }
}

// Makes a plan of `r` records, whose places are its first numbers.
pub fn make_plan(
    s: &[u8],
    sizes: &[u8],
    r: usize,
    d: branch_directions::Directions,
    making: Making,
    plan: &mut [u32],
)
    requires { Planned d r sizes.now s.now plan.old × (numbers_at ≤ length plan.old) }
    ensures { (length plan.new ≡ length plan.old)
        × All (Whole sizes.now s.now) (take r plan.new)
        × Rearranged (take r plan.old) (take r plan.new)
        × Rearranged (count_from 0 max_messages) (take max_messages (drop children_at plan.new)) }
{
    plan_memory::fill_slots(plan);
    plan_order::set_order(s, sizes, r, making.order, plan);
    make_buckets(s, sizes, r, d, making.wide, plan);
}
