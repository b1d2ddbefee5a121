// Which variables a message has, as there is room, and where its numbers stand.
#![tactic(auto)]

ghost use Rattle.std.specs.Prelude.{◌≤◌, ◌<◌};
ghost use Rattle.model.specs.Limits.{max_variables};
ghost use Rattle.layout.specs.Places.{numbers_at};
ghost use Rattle.branch_directions.specs.Directions.{Sensible};
ghost use Rattle.plan_memory.specs.Arranged.{Loose};

// No variable has this number: it stands for one that a message lacks, as it does in the plan itself (a rule of the
// project: fixed memory), so that a variable that is read and one that is made are alike.
pub const NO_VARIABLE: usize = 255;

// Three variables have at most so many combinations of values.
pub const MOST_ENTRIES: usize = 512;

// A variable and how many values it has. A missing one has one value.
#[derive(Clone, Copy)]
pub struct Variable {
    pub number: usize,
    pub values: usize,
}

// The variables of a part, from its first position on.
#[derive(Clone, Copy)]
pub struct Scope {
    pub u: Variable,
    pub v: Variable,
    pub w: Variable,
}

// A message: the variables of its part, their strides (0 where it has no entries for a variable), how many entries
// there are, over how many combinations of values an entry is the least, and where the numbers start.
#[derive(Clone, Copy)]
pub struct Shape {
    pub scope: Scope,
    pub strides: [usize; 3],
    pub entries: usize,
    pub share: usize,
    pub place: usize,
}

// How many values a variable has: 1 to 8.
pub fn size_of(v: usize, sizes: &[u8]) -> usize
    ensures { (1 ≤ result) × (result ≤ 8) }
{
    branch_buckets::byte_at(sizes, v).clamp(1, 8)
}

// How many directions there are.
pub fn width_of(d: branch_directions::Directions) -> usize
    requires { Sensible d }
    ensures { result ≤ 8 }
{
    d.objectives + d.sums
}

// How many numbers there are still for messages.
pub fn room_from(at: usize, plan: &[u32]) -> usize {
    plan.len().saturating_sub(at)
}

// How many combinations `x` values of one kind and `y` of another make.
fn product(x: usize, y: usize) -> usize
    ensures { result ≤ 512 }
{
    (x.min(MOST_ENTRIES) * y.min(MOST_ENTRIES)).min(MOST_ENTRIES)
}

// How many numbers so many entries have.
fn numbers_of(entries: usize, width: usize) -> usize
    requires { width ≤ 8 }
    ensures { result ≤ 4096 }
{
    width * entries.min(MOST_ENTRIES)
}

// A message with entries for the first `kept` variables of a scope, the last of which runs fastest.
pub fn shape_over(scope: Scope, kept: usize, place: usize) -> Shape {
    let Scope { u, v, w } = scope;
    let pairs = product(v.values, w.values);
    let (strides, entries, share) = match kept {
        0 => ([0, 0, 0], 1, product(u.values, pairs)),
        1 => ([1, 0, 0], u.values, pairs),
        2 => ([v.values, 1, 0], product(u.values, v.values), w.values),
        _ => ([pairs, w.values, 1], product(u.values, pairs), 1),
    };
    Shape {
        scope,
        strides,
        entries,
        share,
        place,
    }
}

// A message of a part without variables.
pub fn constant_shape(place: usize) -> Shape {
    let none = Variable {
        number: NO_VARIABLE,
        values: 1,
    };
    let scope = Scope {
        u: none,
        v: none,
        w: none,
    };
    shape_over(scope, 0, place)
}

// How many numbers there are for messages with variables:
// those for a constant of each position up to `k` are kept back.
pub fn room_for(k: usize, at: usize, width: usize, plan: &[u32]) -> usize
    requires { (k < max_variables) × (width ≤ 8) }
{
    room_from(at, plan).saturating_sub(width * (k + 1))
}

// Where a message without variables has its numbers: it is worth nothing unless its part is the last one, so that what
// it holds counts for the next part.
fn constant_place(is_last: bool, at: usize, width: usize, plan: &[u32]) -> usize {
    if is_last && width <= room_from(at, plan) {
        at
    } else {
        layout::NUMBERS_AT
    }
}

// The variable of this number.
fn variable_of(number: usize, sizes: &[u8]) -> Variable {
    Variable {
        number,
        values: size_of(number, sizes),
    }
}

// The variable at the first position of a set, which leaves the set; or a missing one.
fn take_first(set: &mut u32, sizes: &[u8], plan: &[u32]) -> Variable {
    let k = set.trailing_zeros() as usize;
    *set &= !plan_memory::bit(k);
    let number = if k < 24 {
        branch_buckets::variable_at(k, plan)
    } else {
        NO_VARIABLE
    };
    variable_of(number, sizes)
}

// The variables at the first three positions of a set.
fn scope_of(set: u32, sizes: &[u8], plan: &[u32]) -> Scope {
    let mut left = set;
    let u = take_first(&mut left, sizes, plan);
    let v = take_first(&mut left, sizes, plan);
    let w = take_first(&mut left, sizes, plan);
    Scope { u, v, w }
}

// How many numbers the message of a part over the positions of `set` has where it has all its variables.
pub fn numbers_over(set: u32, width: usize, sizes: &[u8], plan: &[u32]) -> usize
    requires { width ≤ 8 }
    ensures { result ≤ 4096 }
{
    let whole = shape_over(scope_of(set, sizes, plan), 3, 0);
    numbers_of(whole.entries, width)
}

// Whether there is such a variable, and room for a message over it and those before it.
fn has_room(variable: Variable, entries: usize, width: usize, room: usize) -> bool
    requires { width ≤ 8 }
{
    variable.number != NO_VARIABLE && numbers_of(entries, width) <= room
}

// How many variables of its part a message has, from the first on: as many as there is room for.
fn kept_of(scope: Scope, width: usize, room: usize) -> usize
    requires { width ≤ 8 }
{
    let Scope { u, v, w } = scope;
    let pairs = product(u.values, v.values);
    if has_room(w, product(pairs, w.values), width, room) {
        3
    } else if has_room(v, pairs, width, room) {
        2
    } else if has_room(u, u.values, width, room) {
        1
    } else {
        0
    }
}

// The message of the part of position `k` over the positions of `set`, with its numbers from `at` on.
pub fn choose_shape(
    k: usize,
    set: u32,
    is_last: bool,
    at: usize,
    width: usize,
    sizes: &[u8],
    plan: &[u32],
) -> Shape
    requires { (k < max_variables) × (width ≤ 8) }
{
    let scope = scope_of(set, sizes, plan);
    match kept_of(scope, width, room_for(k, at, width, plan)) {
        0 => shape_over(scope, 0, constant_place(is_last, at, width, plan)),
        kept => shape_over(scope, kept, at),
    }
}

// Writes a variable of a message and its stride.
fn put_variable(at: usize, variable: Variable, stride: usize, plan: &mut [u32])
    requires { at ≤ numbers_at }
    ensures { Loose plan.old plan.new }
{
    plan_memory::put(at, variable.number, plan);
    plan_memory::put(at + 1, stride, plan);
}

// Writes message `g`, whose part's records and slots end where said.
pub fn put_message(g: usize, shape: Shape, records: usize, slots: usize, plan: &mut [u32])
    ensures { Loose plan.old plan.new }
{
    let scope = shape.scope;
    let strides = shape.strides;
    if g < layout::MAX_MESSAGES {
        let at = layout::MESSAGES_AT + layout::MESSAGE_WIDTH * g;
        plan_memory::put(at, shape.place, plan);
        put_variable(at + 1, scope.u, strides[0], plan);
        put_variable(at + 3, scope.v, strides[1], plan);
        put_variable(at + 5, scope.w, strides[2], plan);
        plan_memory::put(at + 7, records, plan);
        plan_memory::put(at + 8, slots, plan);
    }
}

// How many variables the message at `at` has entries for: those with a stride.
fn kept_at(at: usize, plan: &[u32]) -> usize
    requires { at ≤ numbers_at }
{
    for i in 0..3 {
        if branch_buckets::number_at(plan, at + 2 * i + 2) == 0 {
            return i;
        }
    }
    3
}

// Message `g` as it was written.
pub fn shape_at(g: usize, sizes: &[u8], plan: &[u32]) -> Shape {
    let at = layout::MESSAGES_AT + layout::MESSAGE_WIDTH * g.min(layout::MAX_MESSAGES);
    let u = variable_of(branch_buckets::number_at(plan, at + 1), sizes);
    let v = variable_of(branch_buckets::number_at(plan, at + 3), sizes);
    let w = variable_of(branch_buckets::number_at(plan, at + 5), sizes);
    let kept = kept_at(at, plan);
    shape_over(Scope { u, v, w }, kept, branch_buckets::number_at(plan, at))
}

// Where the next numbers go after those of a message.
pub fn numbers_end(shape: Shape, at: usize, width: usize) -> usize
    requires { width ≤ 8 }
{
    if shape.place == layout::NUMBERS_AT {
        return at;
    }
    at.min(plan_memory::MOST_NUMBER) + numbers_of(shape.entries, width)
}
