// Tests a plan before the search relies on it: order, ends, what is read, and that no bucket sends more than it holds.
#![tactic(auto)]

ghost use Rattle.std.specs.Prelude.{◌≡◌, ◌⊎◌, true, ℕ, ◌+◌, ◌-◌, ◌/◌, ◌%◌, ◌≤◌, ◌<◌, length, get_or, IfSome};
ghost use Rattle.model.specs.Basics.{All};
ghost use Rattle.model.specs.Limits.{max_variables, max_tables};
ghost use Rattle.model.specs.Problems.{DomainSize};
ghost use Rattle.model.specs.Costs.{is_choice};
ghost use Rattle.problem.specs.Records.{Headed};
ghost use Rattle.layout.specs.Places.{max_messages, numbers_at, message_end, field_in};
ghost use Rattle.branch_buckets.specs.Messages.{count_from, children_over};
ghost use Rattle.branch_buckets.specs.Bounds.{places_over};
ghost use Rattle.branch_buckets.specs.Content.{Planned, Ranged, content_end};
ghost use Rattle.branch_buckets.specs.Sound.{Ordered, Ends, Early, Holds, Tested};
ghost use Rattle.branch_buckets.proofs.Reading.{Reads};
ghost use Rattle.plan_test.specs.Orders.{LeadsBack, Falling};
ghost use Rattle.plan_test.specs.Marks.{Marked, ScopeIn, Inside, BucketIn};
ghost use Rattle.plan_test.specs.Parts.{Rows, Lowered, RowLeft, Counted, PartOf, Fits};
ghost use Rattle.plan_test.specs.Parts.{Exist, ChoiceLeaves, ValuesLeave, PairLeaves, PartLeaves, BucketOf};
ghost use Rattle.plan_test.specs.Parts.{Holding, Kept, HoldsAt};

// What is left over of a bucket counts as no more than this.
const MOST_REST: u64 = 4611686018427387904;

// What is left over counts from here, so that a part may send more than it holds where the parts after it keep as much.
const REST_BASE: u64 = 1152921504606846976;

// A part of a bucket: the number of its message, the bucket's variable, the records and slots of the part, and what the
// parts before it left over: a row of eight numbers for each value of the variable.
#[derive(Clone, Copy)]
struct Part {
    pub message: usize,
    pub own: usize,
    pub span: branch_buckets::Span,
    pub rest: [u64; 64],
}

// The last part of a bucket that was looked at, and what it left over.
#[derive(Clone, Copy)]
struct Held {
    pub span: branch_buckets::Span,
    pub rest: [u64; 64],
}

// Whether the `n` numbers from `from` on are below `n`, and those from `to` on lead back.
fn leads_back(from: usize, to: usize, n: usize, plan: &[u32]) -> bool
    requires { (from + n ≤ length plan.now) × (to + n ≤ length plan.now) }
    ensures { result ≡ true → LeadsBack from to n plan.now }
{
    for i in 0..n {
        let j = plan[from + i] as usize;
        if n <= j || plan[to + j] as usize != i {
            return false;
        }
    }
    true
}

// Whether order and positions are inverse to each other.
fn is_ordered(n: usize, plan: &[u32]) -> bool
    requires { (n ≤ max_variables) × (numbers_at ≤ length plan.now) }
    ensures { result ≡ true → Ordered n plan.now }
{
    leads_back(layout::ORDER_AT, layout::POSITIONS_AT, n, plan)
        && leads_back(layout::POSITIONS_AT, layout::ORDER_AT, n, plan)
}

// Whether the numbers from `at` on fall, to 0 at number `n`.
fn falls(at: usize, n: usize, plan: &[u32]) -> bool
    requires { at + n < length plan.now }
    ensures { result ≡ true → Falling at n plan.now }
{
    for k in 0..n {
        if plan[at + k] < plan[at + (k + 1)] {
            return false;
        }
    }
    plan[at + n] == 0
}

// Whether the ends of the positions fall to 0 and start within their limits.
fn are_ends(n: usize, r: usize, plan: &[u32]) -> bool
    requires { (n ≤ max_variables) × (numbers_at ≤ length plan.now) }
    ensures { result ≡ true → Ends n r plan.now }
{
    falls(layout::RECORD_ENDS_AT, n, plan)
        && falls(layout::CHILD_ENDS_AT, n, plan)
        && falls(layout::MESSAGE_ENDS_AT, n, plan)
        && plan[layout::RECORD_ENDS_AT] as usize <= r
        && plan[layout::CHILD_ENDS_AT] as usize <= layout::MAX_MESSAGES
        && plan[layout::MESSAGE_ENDS_AT] as usize == layout::MAX_MESSAGES
}

// Whether variable `v` is marked.
fn is_marked(v: usize, marks: &[u8]) -> bool
    ensures { result ≡ true → Marked marks.now v }
{
    branch_buckets::byte_at(marks, v) == 1
}

// Whether the variable in field `i` of message `g` is marked or, as its stride is 0, not read.
fn is_field_marked(g: usize, i: usize, marks: &[u8], plan: &[u32]) -> bool
    requires { (g < max_messages) × (i < 6) × (numbers_at ≤ length plan.now) }
    ensures { result ≡ true
        → (field_in plan.now g (i + 1) ≡ 0)
        ⊎ Marked marks.now (field_in plan.now g i) }
{
    let at = layout::MESSAGES_AT + layout::MESSAGE_WIDTH * g;
    plan[at + (i + 1)] == 0 || is_marked(plan[at + i] as usize, marks)
}

// Whether message `g` reads marked variables only.
fn reads_marked(g: usize, marks: &[u8], plan: &[u32]) -> bool
    requires { numbers_at ≤ length plan.now }
    ensures { result ≡ true → Reads (Marked marks.now) plan.now g }
{
    g < layout::MAX_MESSAGES
        && is_field_marked(g, 1, marks, plan)
        && is_field_marked(g, 3, marks, plan)
        && is_field_marked(g, 5, marks, plan)
}

// Whether the record at `at` has marked variables only.
fn is_scope_marked(s: &[u8], at: usize, marks: &[u8]) -> bool
    requires { Headed s.now at }
    ensures { result ≡ true → ScopeIn (Marked marks.now) s.now at }
{
    let a = problem::arity_at(s, at);
    for i in 0..a {
        if !is_marked(problem::scope_at(s, at, i), marks) {
            return false;
        }
    }
    true
}

// The same for the records from number `from` to below `to`.
fn are_records_marked(s: &[u8], from: usize, to: usize, marks: &[u8], plan: &[u32]) -> bool
    requires { (from ≤ to) × (to ≤ length plan.now) × Inside s.now plan.now to }
    ensures { result ≡ true
        → All (ScopeIn (Marked marks.now) s.now) (places_over plan.now from to) }
{
    for i in from..to {
        if !is_scope_marked(s, plan[i] as usize, marks) {
            return false;
        }
    }
    true
}

// Whether the messages in slots `first` to below `last` read marked variables only.
fn are_slots_marked(first: usize, last: usize, marks: &[u8], plan: &[u32]) -> bool
    requires { (first ≤ last) × (last ≤ max_messages) × (numbers_at ≤ length plan.now) }
    ensures { result ≡ true
        → All (Reads (Marked marks.now) plan.now)
        (children_over plan.now first last) }
{
    for i in first..last {
        if !reads_marked(plan[layout::CHILDREN_AT + i] as usize, marks, plan) {
            return false;
        }
    }
    true
}

// The same for both.
fn is_bucket_marked(s: &[u8], span: branch_buckets::Span, marks: &[u8], plan: &[u32]) -> bool
    requires { Ranged span × (span.to ≤ max_tables) × Inside s.now plan.now span.to
        × (numbers_at ≤ length plan.now) }
    ensures { result ≡ true → BucketIn (Marked marks.now) s.now plan.now span }
{
    are_records_marked(s, span.from, span.to, marks, plan)
        && are_slots_marked(span.first, span.last, marks, plan)
}

// Whether the messages from number `from` to below `to` read marked variables only.
fn are_sent_marked(from: usize, to: usize, marks: &[u8], plan: &[u32]) -> bool
    requires { (from ≤ to) × (numbers_at ≤ length plan.now) }
    ensures { result ≡ true
        → All (Reads (Marked marks.now) plan.now) (count_from from (to - from)) }
{
    for g in from..to {
        if !reads_marked(g, marks, plan) {
            return false;
        }
    }
    true
}

// Whether what stands behind the ends of each position reads only earlier positions, and what a position sends too.
// Each record and slot is tested once.
fn is_early(s: &[u8], n: usize, r: usize, plan: &[u32]) -> bool
    requires { (n ≤ max_variables) × (r ≤ max_tables) × (numbers_at ≤ length plan.now) × Inside s.now plan.now r
        × Ordered n plan.now × Ends n r plan.now }
    ensures { result ≡ true → Early n r s.now plan.now }
{
    let mut marks = [0u8; 24];
    let mut to = r;
    let mut last = layout::MAX_MESSAGES;
    for k in 0..n {
        let from = plan[layout::RECORD_ENDS_AT + k] as usize;
        let first = plan[layout::CHILD_ENDS_AT + k] as usize;
        let span = branch_buckets::Span {
            from,
            to,
            first,
            last,
        };
        if !is_bucket_marked(s, span, &marks, plan) {
            return false;
        }
        let begin = plan[layout::MESSAGE_ENDS_AT + (k + 1)] as usize;
        let end = plan[layout::MESSAGE_ENDS_AT + k] as usize;
        if !are_sent_marked(begin, end, &marks, plan) {
            return false;
        }
        to = from;
        last = first;
        marks = branch_buckets::with_value(marks, branch_buckets::variable_at(k, plan), 1);
    }
    let span = branch_buckets::Span {
        from: 0,
        to,
        first: 0,
        last,
    };
    is_bucket_marked(s, span, &marks, plan)
}

// How many values variable `u` has; one that does not exist has one.
fn count_values(u: usize, sizes: &[u8]) -> usize
    requires { All DomainSize sizes.now }
    ensures { Counted sizes.now u result }
{
    match sizes.get(u) {
        Some(&size) => size as usize,
        None => 1,
    }
}

// Takes a row's numbers from what is there, and lowers what is left to that, unless there is too little.
fn lower_row(
    at: usize,
    width: usize,
    number: [u64; 8],
    rest: &[u64],
    rows: &[u64],
    left: &mut [u64],
) -> bool
    requires { (width ≤ 8) × (at + width ≤ 64) × Rows rest.now × (length rows.now ≡ 64) × (length left.old ≡ 64)
        × ((j : ℕ) → j < width → get_or rows.now (at + j) 0 < content_end) }
    ensures { Lowered left.old left.new
        × (result ≡ true → RowLeft width at number rest.now rows.now left.new) }
{
    for j in 0..width {
        let there = rest[at + j] + rows[at + j];
        if there < number[j] {
            return false;
        }
        left[at + j] = left[at + j].min(there - number[j]);
    }
    true
}

// The same for every value of the own variable, at a choice of the others.
fn lower_rows(
    s: &[u8],
    sizes: &[u8],
    p: Part,
    choice: &[u8],
    d: branch_directions::Directions,
    plan: &[u32],
    left: &mut [u64],
) -> bool
    requires { Planned d p.span.to sizes.now s.now plan.now × PartOf (length sizes.now) p
        × (is_choice sizes.now choice.now ≡ true) × (length left.old ≡ 64) }
    ensures { Lowered left.old left.new
        × (result ≡ true
        → ChoiceLeaves d sizes.now s.now plan.now p
        left.new choice.now) }
{
    let width = d.objectives + d.sums;
    let g = p.message;
    let own = p.own;
    let rest = p.rest;
    let rows = branch_buckets::content(s, sizes, p.span, own, choice, d, plan);
    let number = branch_buckets::sent(g, g + 1, choice, width, plan);
    let size = sizes[own] as usize;
    for a in 0..size {
        if !lower_row(8 * a, width, number, &rest, &rows, left) {
            return false;
        }
    }
    true
}

// The same for the values number `c` of the three variables of the part's message, the third running fastest: no other
// variable is read. There is nothing to do where a variable would have two values.
fn lower_choice(
    s: &[u8],
    sizes: &[u8],
    p: Part,
    c: usize,
    d: branch_directions::Directions,
    plan: &[u32],
    left: &mut [u64],
) -> bool
    requires { Planned d p.span.to sizes.now s.now plan.now × (numbers_at ≤ length plan.now)
        × PartOf (length sizes.now) p × Fits s.now plan.now p × (c < 512)
        × Exist sizes.now plan.now p (c / 64) (c / 8 % 8) (c % 8) × (length left.old ≡ 64) }
    ensures { Lowered left.old left.new
        × (result ≡ true
        → ValuesLeave d sizes.now s.now plan.now p (c / 64) (c / 8 % 8) (c % 8)
        left.new) }
{
    let n = sizes.len();
    let i = c / 64;
    let j = c / 8 % 8;
    let l = c % 8;
    let at = layout::MESSAGES_AT + layout::MESSAGE_WIDTH * p.message;
    let u = plan[at + 1] as usize;
    let v = plan[at + 3] as usize;
    let w = plan[at + 5] as usize;
    if u == w && i != l {
        return true;
    }
    if v == w && j != l {
        return true;
    }
    let zeros = [0u8; 24];
    let one = branch_buckets::with_value(zeros, u, i);
    let two = branch_buckets::with_value(one, v, j);
    let choice = branch_buckets::with_value(two, w, l);
    lower_rows(s, sizes, p, &choice[..n], d, plan, left)
}

// The same for pair `c` of values of the first two variables, with every value of the third: one where it does not
// exist. There is nothing to do where the two have no such values.
fn lower_pair(
    s: &[u8],
    sizes: &[u8],
    p: Part,
    c: usize,
    d: branch_directions::Directions,
    plan: &[u32],
    left: &mut [u64],
) -> bool
    requires { Planned d p.span.to sizes.now s.now plan.now × (numbers_at ≤ length plan.now)
        × PartOf (length sizes.now) p × Fits s.now plan.now p × (c < 64) × (length left.old ≡ 64) }
    ensures { Lowered left.old left.new
        × (result ≡ true
        → PairLeaves d sizes.now s.now plan.now p (c / 8) (c % 8)
        left.new) }
{
    let i = c / 8;
    let j = c % 8;
    let at = layout::MESSAGES_AT + layout::MESSAGE_WIDTH * p.message;
    let u = plan[at + 1] as usize;
    let v = plan[at + 3] as usize;
    if u == v && i != j {
        return true;
    }
    if count_values(u, sizes) <= i || count_values(v, sizes) <= j {
        return true;
    }
    let size = count_values(plan[at + 5] as usize, sizes);
    for l in 0..size {
        if !lower_choice(s, sizes, p, 8 * c + l, d, plan, left) {
            return false;
        }
    }
    true
}

// Whether the part reads only its own variable and the three of its message.
fn part_fits(s: &[u8], p: Part, plan: &[u32]) -> bool
    requires { (p.message < max_messages) × Ranged p.span × (p.span.to ≤ max_tables)
        × Inside s.now plan.now p.span.to × (numbers_at ≤ length plan.now) }
    ensures { result ≡ true → Fits s.now plan.now p }
{
    let at = layout::MESSAGES_AT + layout::MESSAGE_WIDTH * p.message;
    let zeros = [0u8; 24];
    let one = branch_buckets::with_value(zeros, p.own, 1);
    let two = branch_buckets::with_value(one, plan[at + 1] as usize, 1);
    let three = branch_buckets::with_value(two, plan[at + 3] as usize, 1);
    let marks = branch_buckets::with_value(three, plan[at + 5] as usize, 1);
    is_bucket_marked(s, p.span, &marks, plan)
}

// What the part's message leaves over, least over all values of its variables; none where the part holds less than it.
fn part_rest(
    s: &[u8],
    sizes: &[u8],
    p: Part,
    d: branch_directions::Directions,
    plan: &[u32],
) -> Option<Held>
    requires { Planned d p.span.to sizes.now s.now plan.now × (numbers_at ≤ length plan.now)
        × PartOf (length sizes.now) p × Fits s.now plan.now p }
    ensures { IfSome result (λ held. PartLeaves d sizes.now s.now plan.now p held) }
{
    let mut left = [MOST_REST; 64];
    for c in 0..64 {
        if !lower_pair(s, sizes, p, c, d, plan, &mut left) {
            return None;
        }
    }
    let span = p.span;
    Some(Held { span, rest: left })
}

// What the bucket of position `k` holds after message `g`; none where a test fails.
// A message whose numbers lie outside the plan is worth nothing.
fn after_message(
    s: &[u8],
    sizes: &[u8],
    k: usize,
    g: usize,
    d: branch_directions::Directions,
    plan: &[u32],
    held: Held,
) -> Option<Held>
    requires { BucketOf d sizes.now s.now plan.now k × (numbers_at ≤ length plan.now) × (g < max_messages)
        × (message_end plan.now (k + 1) ≤ g) × Holding d sizes.now s.now plan.now k g held }
    ensures { IfSome result (λ next. Holding d sizes.now s.now plan.now k (g + 1) next) }
{
    let at = layout::MESSAGES_AT + layout::MESSAGE_WIDTH * g;
    if plan.len() <= plan[at] as usize {
        return Some(held);
    }
    let taken = held.span;
    let from = taken.to;
    let first = taken.last;
    let to = from.max(plan[at + 7] as usize);
    let last = first.max(plan[at + 8] as usize);
    if to > plan[layout::RECORD_ENDS_AT + k] as usize
        || last > plan[layout::CHILD_ENDS_AT + k] as usize
    {
        return None;
    }
    let own = branch_buckets::variable_at(k, plan);
    let span = branch_buckets::Span {
        from,
        to,
        first,
        last,
    };
    let rest = held.rest;
    let p = Part {
        message: g,
        own,
        span,
        rest,
    };
    if !part_fits(s, p, plan) {
        return None;
    }
    part_rest(s, sizes, p, d, plan)
}

// Whether nothing is missing in what is left over.
fn is_kept(rest: [u64; 64]) -> bool
    ensures { result ≡ true → Kept rest }
{
    for x in rest {
        if x < REST_BASE {
            return false;
        }
    }
    true
}

// Whether the bucket of position `k` sends no more than it holds.
fn holds_at(
    s: &[u8],
    sizes: &[u8],
    r: usize,
    k: usize,
    d: branch_directions::Directions,
    plan: &[u32],
) -> bool
    requires { Planned d r sizes.now s.now plan.now × (numbers_at ≤ length plan.now) × (k < length sizes.now)
        × Ordered (length sizes.now) plan.now × Ends (length sizes.now) r plan.now }
    ensures { result ≡ true → HoldsAt d sizes.now s.now plan.now k }
{
    let end = plan[layout::MESSAGE_ENDS_AT + k] as usize;
    let bucket = branch_buckets::span_at(k, plan);
    let from = bucket.from;
    let first = bucket.first;
    let span = branch_buckets::Span {
        from,
        to: from,
        first,
        last: first,
    };
    let rest = [REST_BASE; 64];
    let mut held = Held { span, rest };
    let begin = plan[layout::MESSAGE_ENDS_AT + (k + 1)] as usize;
    for g in begin..end {
        let Some(next) = after_message(s, sizes, k, g, d, plan, held) else {
            return false;
        };
        held = next;
    }
    let left = held.rest;
    is_kept(left)
}

// The same for every position.
fn all_hold(
    s: &[u8],
    sizes: &[u8],
    r: usize,
    d: branch_directions::Directions,
    plan: &[u32],
) -> bool
    requires { Planned d r sizes.now s.now plan.now × (numbers_at ≤ length plan.now)
        × Ordered (length sizes.now) plan.now × Ends (length sizes.now) r plan.now }
    ensures { result ≡ true → Holds d sizes.now s.now plan.now }
{
    for k in 0..sizes.len() {
        if !holds_at(s, sizes, r, k, d, plan) {
            return false;
        }
    }
    true
}

// Whether the search may rely on the plan.
pub fn is_sound(
    s: &[u8],
    sizes: &[u8],
    r: usize,
    d: branch_directions::Directions,
    plan: &[u32],
) -> bool
    requires { Planned d r sizes.now s.now plan.now × (numbers_at ≤ length plan.now) }
    ensures { result ≡ true → Tested d r sizes.now s.now plan.now }
{
    let n = sizes.len();
    is_ordered(n, plan)
        && are_ends(n, r, plan)
        && is_early(s, n, r, plan)
        && all_hold(s, sizes, r, d, plan)
}
