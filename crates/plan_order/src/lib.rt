// The search order of a plan: from the last position on, the variable with the fewest links, or with the least fill; or
// the variables' own order.
#![tactic(auto)]

ghost use Rattle.std.specs.Prelude.{◌≡◌, ◌≤◌, ◌<◌, length};
ghost use Rattle.model.specs.Limits.{max_variables};
ghost use Rattle.plan_memory.specs.Arranged.{Loose};
ghost use Rattle.plan_order.specs.Fill.{max_size, max_sizes, max_fill};
ghost use Rattle.plan_order.specs.Orders.{order_numbered};

// No variable that is left has a larger score.
const MOST_SCORE: u64 = 4294967295;

// Gives each variable the position of its own number.
fn number_positions(plan: &mut [u32])
    ensures { Loose plan.old plan.new }
{
    for v in 0..24 {
        plan_memory::put(layout::POSITIONS_AT + v, v, plan);
    }
}

// Links the members of a set with each other.
fn link(set: u32, links: &mut [u32; 24]) {
    for (v, near) in links.iter_mut().enumerate() {
        if set & plan_memory::bit(v) != 0 {
            *near |= set;
        }
    }
}

// For each variable those that share one of the `r` records with it. Each variable's position is its own number.
fn links_of(s: &[u8], r: usize, plan: &[u32]) -> [u32; 24] {
    let mut links = [0u32; 24];
    for i in 0..r {
        let set = plan_memory::record_scope(s, branch_buckets::number_at(plan, i), plan);
        link(set, &mut links);
    }
    links
}

// How many values a variable has if it is in the set, or 0.
fn size_in(v: usize, set: u32, sizes: &[u8]) -> u64
    ensures { result ≤ max_size }
{
    if set & plan_memory::bit(v) == 0 {
        return 0;
    }
    branch_buckets::byte_at(sizes, v) as u64
}

// How many values the variables of a set have, added up.
fn sizes_of(set: u32, sizes: &[u8]) -> u64
    ensures { result ≤ max_sizes }
{
    let mut sum: u64 = 0;
    for v in 0..24 {
        sum += size_in(v, set, sizes);
    }
    sum
}

// The fill of a variable with these neighbours: over each two of them that are not linked the product of how many
// values they have, each way round.
fn fill_of(near: u32, links: [u32; 24], sizes: &[u8]) -> u64
    ensures { result ≤ max_fill }
{
    let mut fill: u64 = 0;
    for v in 0..24 {
        let apart = near & !links[v] & !plan_memory::bit(v);
        fill += size_in(v, near, sizes) * sizes_of(apart, sizes);
    }
    fill
}

// Which of the variables that are left comes last.
#[derive(Clone, Copy, PartialEq, Eq)]
pub enum Order {
    // Of those with the fewest links the last.
    Links,
    // Of those with the fewest links the first.
    LinksFirst,
    // Of those with the least fill the one with the fewest links.
    Fill,
    // The last one.
    Own,
}

// The order of this number, for whoever has numbers for orders; a number past the last one says the first.
impl From<usize> for Order {
    ghost from_gives = { λ number order. order ≡ order_numbered number };

    fn from(number: usize) -> Order {
        match number {
            1 => Order::LinksFirst,
            2 => Order::Fill,
            3 => Order::Own,
            _ => Order::Links,
        }
    }
}

// The score of a variable, of which the least comes last: how many others of `left` are linked to it, or that behind
// its fill; by the variables' own order all have the same. More than the most score where it is not left itself.
fn score_of(v: usize, links: [u32; 24], left: u32, sizes: &[u8], order: Order) -> u64
    requires { v < max_variables }
{
    if left & plan_memory::bit(v) == 0 {
        return MOST_SCORE + 1;
    }
    let near = links[v] & left & !plan_memory::bit(v);
    let degree = u64::from(near.count_ones());
    match order {
        Order::Links | Order::LinksFirst => degree,
        Order::Fill => 32 * fill_of(near, links, sizes) + degree,
        Order::Own => 0,
    }
}

// Whether a score is better than that of an earlier variable. Of equal ones the last is taken, or the first.
fn is_better(score: u64, found: u64, order: Order) -> bool {
    match order {
        Order::LinksFirst => score < found,
        _ => score <= found,
    }
}

// The variable of `left` with the least score.
fn best_of(links: [u32; 24], left: u32, sizes: &[u8], order: Order) -> usize
    requires { length sizes.now ≤ max_variables }
    ensures { result < max_variables }
{
    let mut best: usize = 0;
    let mut found = MOST_SCORE;
    for v in 0..sizes.len() {
        let score = score_of(v, links, left, sizes, order);
        if is_better(score, found, order) {
            best = v;
            found = score;
        }
    }
    best
}

// Writes the order and the positions: from the last position to the first the variable with the least score, whose
// neighbours are linked then. The two orders by links alone differ where variables have as many; in the variables' own
// order the earliest of choices with equal costs is met first.
pub fn set_order(s: &[u8], sizes: &[u8], r: usize, order: Order, plan: &mut [u32])
    requires { length sizes.now ≤ max_variables }
    ensures { Loose plan.old plan.new }
{
    number_positions(plan);
    let mut links = links_of(s, r, plan);
    let mut left = u32::MAX;
    for k in (0..sizes.len()).rev() {
        let v = best_of(links, left, sizes, order);
        left &= !plan_memory::bit(v);
        let near = links[v] & left;
        link(near, &mut links);
        plan_memory::put(layout::ORDER_AT + k, v, plan);
        plan_memory::put(layout::POSITIONS_AT + v, k, plan);
    }
}
