// The problems of the last variables, each in one objective: what their least costs add to the bound of a prefix,
// in work memory.
#![tactic(auto)]

ghost use Rattle.std.specs.Prelude.{◌≡◌, ◌++◌, ◌∷◌, [], ◌+◌, ◌-◌, ◌<◌, ◌≤◌, length, get_or, take, drop, replicate};
ghost use Rattle.std.specs.Option.{option_map_or};
ghost use Rattle.model.specs.Limits.{max_objectives, max_variables};
ghost use Rattle.model.specs.Suffixes.{suffix_sides, Gain, Gains};
ghost use Rattle.layout.specs.Layout.{gains_at, source_at};
ghost use Rattle.pass_search.specs.States.{gains_in};
ghost use Rattle.groups.specs.Sources.{source_problem, Source};
ghost use Rattle.pass_suffixes.specs.Gained.{FoundFrom, Left};

// The variables from `k` on as side 1.
fn suffix_sides(k: usize) -> [u8; 24]
    requires { k ≤ max_variables }
    ensures { result ≡ suffix_sides max_variables k }
{
    let mut sides = [0u8; 24];
    sides[k..].fill(1);
    sides
}

// Ceilings of the problem of objective `o` alone: `c` there, and 1 before it, where it costs nothing.
fn suffix_ceilings(o: usize, c: u64) -> [u64; 4]
    requires { o < max_objectives }
    ensures { take (o + 1) result ≡ replicate o 1 ++ (c ∷ []) }
{
    let mut ceilings = [1u64; 4];
    ceilings[o] = c;
    ceilings
}

// What the least cost is more than the sum of least entries, or the largest number of four bytes where that is less: a
// smaller gain is sound too. The ceiling stands for the least cost where no choice is under it.
fn gain_of(best: Option<pass_search::Met>, least: u64, o: usize, c: u64) -> u32
    requires { o < max_objectives }
    ensures { result ≤ option_map_or (λ met. get_or met.costs o 0) best c - least }
{
    let cost = match best {
        Some(met) => met.costs[o],
        None => c,
    };
    let gain = cost.saturating_sub(least);
    gain.min(u32::MAX as u64) as u32
}

// The gain of objective `o` and the variables from `k` on,
// by a search of its own that uses the gains of the variables after `k`.
pub fn suffix_gain(
    s: &[u8],
    sizes: &[u8],
    task: groups::Task,
    o: usize,
    k: usize,
    work: &mut [u32],
) -> u32
    requires { Source task sizes.now s.now work.old
        × FoundFrom (source_problem task sizes.now s.now work.old) o k work.old × (o < task.objectives)
        × (k < length sizes.now) }
    ensures { Gain (source_problem task sizes.now s.now work.old) o k result
        × (drop gains_at work.new ≡ drop gains_at work.old)
        × (length work.new ≡ length work.old) }
{
    let n = sizes.len();
    let sides = suffix_sides(k);
    let narrow = views::narrow(sizes, &sides[..n], 1);
    let part = views::Part {
        side: 1,
        low: o as u8,
        high: (o as u8) + 1,
    };
    let which = views::Selection {
        part,
        records: task.records,
        from: layout::SOURCE_AT,
        to: layout::RECORDS_AT,
    };
    let count = views::keep_records(s, sizes, &sides[..n], which, work);
    groups::group_records(s, &narrow[..n], count, work);
    let root = pass_search::root_of(s, &narrow[..n], count, work);
    let bound = root.bound;
    let ceilings = task.ceilings;
    let c = ceilings[o];
    let limits = suffix_ceilings(o, c);
    let alone = groups::Task {
        records: count,
        objectives: o + 1,
        ceilings: limits,
        room: 0,
    };
    let best = pass_search::next_point(root, s, &narrow[..n], work, alone, 0);
    gain_of(best, bound[o], o, c)
}

// The gains of one objective, from the last variable to the second.
fn objective_gains(s: &[u8], sizes: &[u8], task: groups::Task, o: usize, work: &mut [u32])
    requires { Source task sizes.now s.now work.old
        × FoundFrom (source_problem task sizes.now s.now work.old) o (length sizes.now) work.old
        × (o < task.objectives) }
    ensures { FoundFrom (source_problem task sizes.now s.now work.old)
        o 0 work.new
        × Left work.old work.new }
{
    for k in (1..sizes.len()).rev() {
        let gain = suffix_gain(s, sizes, task, o, k, work);
        work[layout::GAINS_AT + 4 * k + o] = gain;
    }
}

// The gains of all objectives, from the last to the first: a search in one objective needs those before it to be none.
pub fn find_gains(s: &[u8], sizes: &[u8], task: groups::Task, work: &mut [u32])
    requires { Source task sizes.now s.now work.old }
    ensures { Gains (source_problem task sizes.now s.now work.old)
        (gains_in task.objectives work.new)
        × (gains_in max_objectives work.new (length sizes.now) ≡ replicate max_objectives 0)
        × Left work.old work.new }
{
    clear_gains(work);
    for o in (0..task.objectives).rev() {
        objective_gains(s, sizes, task, o, work);
    }
}

// Zeros the gains.
fn clear_gains(work: &mut [u32])
    requires { source_at ≤ length work.old }
    ensures { work.new
        ≡ take gains_at work.old ++ replicate (source_at - gains_at) 0 ++ drop source_at work.old }
{
    work[layout::GAINS_AT..layout::SOURCE_AT].fill(0);
}
