// Where everything stands in work memory, in numbers from its start, and in a plan.
// What each place holds is said beside its definition in specs/Layout.antt.
#![tactic(auto)]

pub const ZONES_END: usize = 1024;

pub const GROUPS_AT: usize = 25;

pub const RECORDS_AT: usize = 793;

pub const GAINS_AT: usize = 1049;

pub const SOURCE_AT: usize = 1149;

pub const LIST_AT: usize = 1405;

pub const ROW_WIDTH: usize = 14;

// The plan begins behind the list.
pub const PLAN_AT: usize = 2315;

pub const SEARCH_END: usize = 7285;

pub const FIRST_ROW: usize = 420;

pub const SECOND_ROW: usize = 65;

// Places in a plan, from its start; what each holds is said in specs/Places.antt.
pub const CHILDREN_AT: usize = 256;

// What stands before this is only rearranged while a plan is made.
pub const LOOSE_AT: usize = 376;

pub const ORDER_AT: usize = 376;

pub const POSITIONS_AT: usize = 400;

pub const RECORD_ENDS_AT: usize = 424;

pub const CHILD_ENDS_AT: usize = 449;

pub const MESSAGE_ENDS_AT: usize = 474;

pub const MESSAGES_AT: usize = 499;

pub const MESSAGE_WIDTH: usize = 9;

pub const NUMBERS_AT: usize = 1579;

pub const MAX_MESSAGES: usize = 120;
