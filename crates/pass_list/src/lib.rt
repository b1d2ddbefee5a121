// The first form of the search: passes in list order, each of which adds the next point to the list in work memory.
#![tactic(auto)]

ghost use Rattle.std.specs.Prelude.{◌≡◌, ◌≤◌};
ghost use Rattle.model.specs.Limits.{max_points};
ghost use Rattle.model.specs.Suffixes.{Gains};
ghost use Rattle.pass_search.specs.States.{problem_in, gains_in, Setting, Stands};
ghost use Rattle.groups.specs.Sources.{Source, source_problem};
ghost use Rattle.pass_list.specs.Says.{CoreFound};

// Passes until no point is left or the room is full: how many points the list has, or `None` where it is longer than
// the room.
pub fn find_points(
    root: pass_search::Partial,
    s: &[u8],
    sizes: &[u8],
    task: groups::Task,
    work: &mut [u32],
) -> Option<usize>
    requires { Setting task 0 sizes.now s.now work.old
        × Stands task.records sizes.now s.now work.old root × (root.len ≡ 0) × (task.room ≤ max_points)
        × Gains (problem_in task sizes.now s.now work.old) (gains_in task.objectives work.old) }
    ensures { CoreFound (problem_in task sizes.now s.now work.old)
        task.room work.old work.new result }
{
    let p = task.objectives;
    let room = task.room;
    for k in 0..room {
        let Some(met) = pass_search::next_point(root, s, sizes, work, task, k) else {
            return Some(k);
        };
        let costs = met.costs;
        let choice = met.choice;
        rows::store_point(costs, choice, p, k, work);
    }
    match pass_search::next_point(root, s, sizes, work, task, room) {
        Some(_) => None,
        None => Some(room),
    }
}

// The frontier list of a task whose records' places stand in work memory where a problem's records are.
pub fn find_source(s: &[u8], sizes: &[u8], task: groups::Task, work: &mut [u32]) -> Option<usize>
    requires { Source task sizes.now s.now work.old × (task.room ≤ max_points) }
    ensures { CoreFound (source_problem task sizes.now s.now work.old)
        task.room work.old work.new result }
{
    let r = task.records;
    pass_suffixes::find_gains(s, sizes, task, work);
    groups::copy_numbers(layout::SOURCE_AT, layout::RECORDS_AT, r, work);
    groups::group_records(s, sizes, r, work);
    let root = pass_search::root_of(s, sizes, r, work);
    find_points(root, s, sizes, task, work)
}
