// Which sums a plan has: the shares of the objectives in them, and the ranges that they are divided by. A plan of
// another kind has others, so that what one plan does not prune another may. Nothing is promised of them.
#![tactic(auto)]

ghost use Rattle.std.specs.Prelude.{◌≡◌, ◌≤◌};
ghost use Rattle.model.specs.Limits.{max_objectives};
ghost use Rattle.plan_sums.specs.Kinds.{kind_numbered};

// A larger range counts as this one. No sum of entries reaches it.
const MAX_RANGE: u64 = 1099511627776;

// What is known of each objective's costs: how far apart they lie; how far above the least sum the largest one below
// the ceiling lies, at least 1; that largest one; and whether some ceiling is below what its objective may cost.
#[derive(Clone, Copy)]
pub struct Ranges {
    pub spreads: [u64; 4],
    pub slacks: [u64; 4],
    pub tops: [u64; 4],
    pub binds: bool,
}

// The kinds of plans, by the sums that they have where a ceiling binds.
#[derive(Clone, Copy, PartialEq, Eq)]
pub enum Kind {
    // By spreads, and the fourth by slacks.
    Spreads,
    // All by slacks.
    Slacks,
    // The same as the first: the order of the plan is another one.
    Fill,
    // One alone.
    Alone,
}

// The kind of this number, for whoever has numbers for kinds; a number past the last one says the first.
impl From<usize> for Kind {
    ghost from_gives = { λ number kind. kind ≡ kind_numbered number };

    fn from(number: usize) -> Kind {
        match number {
            1 => Kind::Slacks,
            2 => Kind::Fill,
            3 => Kind::Alone,
            _ => Kind::Spreads,
        }
    }
}

// What parts each sum has of each objective, four numbers in a row. The first sum leads, so it leaves none out.
fn parts_for(p: usize) -> [u64; 16] {
    match p {
        0..=2 => [1, 1, 0, 0, 3, 1, 0, 0, 1, 3, 0, 0, 1, 10, 0, 0],
        3 => [1, 1, 1, 0, 1, 0, 1, 0, 1, 1, 0, 0, 0, 1, 1, 0],
        _ => [1, 1, 1, 1, 1, 0, 1, 0, 1, 0, 0, 1, 1, 1, 0, 0],
    }
}

// The share of each objective in each sum: 4,096 for each part.
fn shares_for(p: usize) -> [u64; 16] {
    parts_for(p).map(|part| part << 12)
}

// How far a cost may lie above the least one. Where costs below the ceiling hardly differ it counts as a part of the
// largest one, so that sums up to the ceilings still fit 32 bits.
fn slack_of(low: u64, top: u64) -> u64 {
    top.saturating_sub(low).max(top >> 4).min(MAX_RANGE) + 1
}

// How far the costs of an objective lie apart, or its slack where they do not.
fn spread_of(low: u64, most: u64, slack: u64) -> u64 {
    if low < most { most - low } else { slack }
}

// What is known of the costs of `p` objectives under these ceilings.
pub fn ranges_of(p: usize, e: plan_spreads::Extents, ceilings: [u64; 4]) -> Ranges
    requires { p ≤ max_objectives }
{
    let lows = e.lows;
    let mosts = e.mosts;
    let mut spreads = [0u64; 4];
    let mut slacks = [0u64; 4];
    let mut tops = [0u64; 4];
    let mut binds = false;
    for j in 0..p {
        let last = ceilings[j].saturating_sub(1);
        let top = mosts[j].min(last);
        let slack = slack_of(lows[j], top);
        spreads[j] = spread_of(lows[j], mosts[j], slack);
        slacks[j] = slack;
        tops[j] = top;
        binds |= last < mosts[j];
    }
    Ranges {
        spreads,
        slacks,
        tops,
        binds,
    }
}

// The same four numbers in every row.
fn in_every_row(row: [u64; 4]) -> [u64; 16] {
    std::array::from_fn(|i| row[i % 4])
}

// The table with these numbers as its last row.
fn with_last_row(mut table: [u64; 16], row: [u64; 4]) -> [u64; 16] {
    table[12..].copy_from_slice(&row);
    table
}

// The fourth sum has these shares, by slacks.
fn with_fourth(
    sums: branch_directions::Sums,
    shares: [u64; 4],
    r: Ranges,
) -> branch_directions::Sums {
    branch_directions::Sums {
        shares: with_last_row(sums.shares, shares),
        ranges: with_last_row(sums.ranges, r.slacks),
        count: 4,
    }
}

// One sum alone, with these shares, by slacks.
fn one_sum(shares: [u64; 4], r: Ranges) -> branch_directions::Sums {
    branch_directions::Sums {
        shares: in_every_row(shares),
        ranges: in_every_row(r.slacks),
        count: 1,
    }
}

// The sum that is adapted to the ceilings has these shares, by slacks: the only one, or the fourth.
pub fn with_adapted(
    sums: branch_directions::Sums,
    shares: [u64; 4],
    r: Ranges,
) -> branch_directions::Sums {
    if sums.count == 1 {
        one_sum(shares, r)
    } else {
        with_fourth(sums, shares, r)
    }
}

// The sums of a plan of this kind for `p` objectives. Where no ceiling binds they go by spreads; else the fourth has
// equal shares by slacks, or all go by slacks, or there is one alone: with fewer directions messages have room for more
// variables.
pub fn sums_of(kind: Kind, p: usize, r: Ranges) -> branch_directions::Sums {
    let shares = shares_for(p);
    let by_spreads = branch_directions::Sums {
        shares,
        ranges: in_every_row(r.spreads),
        count: 4,
    };
    if !r.binds {
        return by_spreads;
    }
    let equal = [shares[0], shares[1], shares[2], shares[3]];
    match kind {
        Kind::Slacks => branch_directions::Sums {
            ranges: in_every_row(r.slacks),
            ..by_spreads
        },
        Kind::Alone => one_sum(equal, r),
        Kind::Spreads | Kind::Fill => with_fourth(by_spreads, equal, r),
    }
}
