// Reads, writes and rearranges a plan that is being made, so that no record and no message is lost.
// Every index is tested as it is used, and every number that is read is taken as it comes.
#![tactic(auto)]

ghost use Rattle.std.specs.Prelude.{◌≡◌, ◌≤◌, ◌<◌, length};
ghost use Rattle.model.specs.Limits.{max_tables};
ghost use Rattle.layout.specs.Places.{numbers_at, max_messages, children_at, loose_at};
ghost use Rattle.branch_buckets.specs.Messages.{count_from};
ghost use Rattle.groups.proofs.Overwritten.{over};
ghost use Rattle.plan_memory.specs.Arranged.{Loose, Arranged};

// The most that a message's number may be; as a place it lies outside of every plan.
pub const MOST_NUMBER: usize = 4294967295;

// Writes number `i` of the plan, unless it is one that is only rearranged.
pub fn put(i: usize, number: usize, plan: &mut [u32])
    ensures { Loose plan.old plan.new }
{
    if layout::LOOSE_AT <= i && i < plan.len() && number <= MOST_NUMBER {
        plan[i] = number as u32;
    }
}

// What a plan lists, and only the order of which it may change: the records of a problem, or the slots.
#[derive(Clone, Copy)]
pub enum Listed<'a> {
    Records(&'a [u8]),
    Slots,
}

// Two of the `r` records, or two slots, change places.
fn exchange(listed: Listed<'_>, i: usize, j: usize, r: usize, plan: &mut [u32])
    requires { r ≤ max_tables }
    ensures { Arranged r plan.old plan.new }
{
    if plan.len() < layout::LOOSE_AT {
        return;
    }
    match listed {
        Listed::Records(_) => {
            if i < r && j < r {
                plan.swap(i, j);
            }
        }
        Listed::Slots => {
            if i < layout::MAX_MESSAGES && j < layout::MAX_MESSAGES {
                plan.swap(layout::CHILDREN_AT + i, layout::CHILDREN_AT + j);
            }
        }
    }
}

// The set with position `k` alone. A set of positions has one bit for each.
pub fn bit(k: usize) -> u32 {
    1u32 << (k % 32)
}

// The positions of the variables of the record at `at`. It reads for itself what `problem::scope_at` knows: a plan that
// is being made is not tested yet, so that `at` may be no record's place.
pub fn record_scope(s: &[u8], at: usize, plan: &[u32]) -> u32 {
    if 65535 < at {
        return 0;
    }
    let a = branch_buckets::byte_at(s, at + 3);
    let mut set: u32 = 0;
    for i in 0..a {
        let v = branch_buckets::byte_at(s, at + 4 + i);
        set |= bit(branch_buckets::number_at(plan, layout::POSITIONS_AT + v));
    }
    set
}

// The position of variable `v` as a set.
fn position_of(v: usize, plan: &[u32]) -> u32 {
    if v < 24 {
        bit(branch_buckets::number_at(plan, layout::POSITIONS_AT + v))
    } else {
        0
    }
}

// The positions that message `g` reads.
pub fn message_scope(g: usize, plan: &[u32]) -> u32 {
    if layout::MAX_MESSAGES <= g {
        return 0;
    }
    let at = layout::MESSAGES_AT + layout::MESSAGE_WIDTH * g;
    let mut set: u32 = 0;
    for i in [1, 3, 5] {
        if branch_buckets::number_at(plan, at + i + 1) != 0 {
            set |= position_of(branch_buckets::number_at(plan, at + i), plan);
        }
    }
    set
}

// The positions that record or slot `i` reads; none behind the last slot. In line, so that whether records or slots are
// listed is asked once by its caller.
#[inline(always)]
pub fn scope_at(listed: Listed<'_>, i: usize, plan: &[u32]) -> u32 {
    match listed {
        Listed::Records(s) => record_scope(s, branch_buckets::number_at(plan, i), plan),
        Listed::Slots if i < layout::MAX_MESSAGES => {
            message_scope(
                branch_buckets::number_at(plan, layout::CHILDREN_AT + i),
                plan,
            )
        }
        Listed::Slots => 0,
    }
}

// Whether a set has all of `needed`, and nothing outside `allowed`.
fn is_between(set: u32, needed: u32, allowed: u32) -> bool {
    set & needed == needed && set & !allowed == 0
}

// Of the records or slots from number `from` to below `to` brings those whose positions have all of `needed` and none
// outside `allowed` to the front, and answers where they end.
#[inline(always)]
#[tactic(auto, using(crate::proofs::Arranging::arranged_refl))]
fn gather(
    listed: Listed<'_>,
    needed: u32,
    allowed: u32,
    from: usize,
    to: usize,
    r: usize,
    plan: &mut [u32],
) -> usize
    requires { r ≤ max_tables }
    ensures { Arranged r plan.old plan.new }
{
    let mut end = from;
    for i in from..to {
        if is_between(scope_at(listed, i, plan), needed, allowed) {
            exchange(listed, end, i, r, plan);
            end += 1;
        }
    }
    end
}

// Of the records from number `from` to below `to` brings those whose positions have all of `needed` and nothing outside
// `allowed` to the front, and answers where they end.
pub fn gather_records(
    s: &[u8],
    needed: u32,
    allowed: u32,
    from: usize,
    to: usize,
    r: usize,
    plan: &mut [u32],
) -> usize
    requires { r ≤ max_tables }
    ensures { Arranged r plan.old plan.new }
{
    gather(Listed::Records(s), needed, allowed, from, to, r, plan)
}

// The same for the slots, by what their messages read.
pub fn gather_slots(
    needed: u32,
    allowed: u32,
    from: usize,
    to: usize,
    r: usize,
    plan: &mut [u32],
) -> usize
    requires { r ≤ max_tables }
    ensures { Arranged r plan.old plan.new }
{
    gather(
        Listed::Slots,
        needed,
        allowed,
        from,
        to.min(layout::MAX_MESSAGES),
        r,
        plan,
    )
}

// Writes the numbers of the messages into the slots, in order.
pub fn fill_slots(plan: &mut [u32])
    requires { numbers_at ≤ length plan.old }
    ensures { plan.new ≡ over plan.old children_at (count_from 0 max_messages) loose_at }
{
    for i in 0..layout::MAX_MESSAGES {
        plan[layout::CHILDREN_AT + i] = i as u32;
    }
}
