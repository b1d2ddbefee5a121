// The cut call's list: the lists of the two halves, each by a search, and the passes over the sums of their points.
#![tactic(auto)]

ghost use Rattle.std.specs.Prelude.{◌≡◌, true, ◌≤◌, length, take};
ghost use Rattle.model.specs.Limits.{max_points, work_need};
ghost use Rattle.model.specs.Reading.{problem_of};
ghost use Rattle.model.specs.Core.{core_of, with_ceilings, core_frontier};
ghost use Rattle.model.specs.Cuts.{sides_ok, uncrossed};
ghost use Rattle.model.specs.Views.{view};
ghost use Rattle.problem.specs.Says.{Reads};
ghost use Rattle.layout.specs.Layout.{first_row, second_row};
ghost use Rattle.answers.specs.Cuts.{CutFound};
ghost use Rattle.cut_halves.specs.Says.{KeptSays};

// Finds the list of one half, under its ceilings, and keeps it from the row `row` on.
fn keep_half(
    s: &[u8],
    q: problem::Problem,
    sides: &[u8],
    side: u8,
    ceilings: [u64; 4],
    row: usize,
    work: &mut [u32],
) -> Option<usize>
    requires { Reads s.now q × (length (problem_of s.now).domains ≡ length sides.now)
        × (second_row ≤ row) × (row ≤ first_row) × (work_need ≤ length work.old) }
    ensures { KeptSays q.head.objectives q.head.variables
        (core_frontier (view side
        (with_ceilings (take q.head.objectives ceilings) (core_of (problem_of s.now)))
        sides.now))
        row work.old work.new result }
{
    let found = listing::find_half(s, q, sides, side, ceilings, &mut work[..layout::SEARCH_END]);
    let to = layout::LIST_AT + layout::ROW_WIDTH * row;
    groups::copy_numbers(
        layout::LIST_AT,
        to,
        layout::ROW_WIDTH * found.unwrap_or(0),
        work,
    );
    found
}

// The frontier list of a problem that was read, in work memory, from the lists of the two halves.
pub fn cut_lists(
    s: &[u8],
    q: problem::Problem,
    sides: &[u8],
    room: usize,
    work: &mut [u32],
) -> Option<answers::Lists>
    requires { Reads s.now q × (sides_ok (problem_of s.now) sides.now ≡ true)
        × (uncrossed sides.now (problem_of s.now).tables ≡ true) × (room ≤ max_points)
        × (work_need ≤ length work.old) }
    ensures { CutFound (problem_of s.now) sides.now room
        work.old work.new result }
{
    let head = q.head;
    let ceilings = head.ceilings;
    let wide = listing::widened(ceilings);
    let first = keep_half(s, q, sides, 0, wide, layout::FIRST_ROW, work)?;
    let second = keep_half(s, q, sides, 1, wide, layout::SECOND_ROW, work)?;
    let n = head.variables as usize;
    let p = head.objectives as usize;
    let count = cut_sums::merge_points(first, second, n, p, wide, room, work)?;
    Some(answers::Lists {
        count,
        first,
        second,
    })
}
