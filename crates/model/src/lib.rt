// The model: the rules of docs/REFERENCE.md as definitions (specs/), the theorems about them (proofs/),
// and here the kinds with their limits.
#![tactic(auto)]

ghost use Rattle.std.specs.Prelude.{◌≡◌, ◌<◌, not, leb};
ghost use Rattle.model.specs.Limits.{max_bytes, max_variables, max_objectives, max_tables, max_domain, max_arity};
ghost use Rattle.model.specs.Limits.{word_end};
ghost use Rattle.model.specs.Reading.{outside};
ghost use Rattle.model.specs.Reasons.{number_of, told, value_or};

// Why a call refuses, by the words of docs/REFERENCE.md, section 6, and with its numbers.
#[derive(Clone, Copy, PartialEq, Eq)]
pub enum Reason {
    Oversize = 1,
    CutShort = 2,
    StrayMark = 3,
    Variables = 4,
    Objectives = 5,
    Tables = 6,
    Domain = 7,
    Owner = 8,
    Arity = 9,
    Scope = 10,
    Leftover = 11,
    Work = 12,
    Sides = 13,
    Linked = 14,
    Full = 15,
    Prefix = 16,
    Text = 17,
    Dialect = 18,
    Output = 19,
    Store = 20,
    Batch = 21,
}

impl Reason {
    // Its number, as the calls tell it.
    pub fn number(self) -> u8
        ensures { result ≡ number_of self }
    {
        self as u8
    }

    // The refusal for this reason at a place.
    pub fn at(self, place: usize) -> Refusal
        ensures reason { result.reason ≡ self }
        ensures place { result.place ≡ place }
    {
        Refusal {
            reason: self,
            place,
        }
    }
}

// What a call refuses: why, and where.
#[derive(Clone, Copy, PartialEq, Eq)]
pub struct Refusal {
    pub reason: Reason,
    pub place: usize,
}

impl Refusal {
    // Its number, as C is told it; the place goes through a reference. No call has a place above 60,000.
    pub fn tell(self, place: &mut u32) -> u8
        ensures number { result ≡ number_of self.reason }
        ensures place { self.place < word_end → place.new ≡ self.place }
    {
        *place = self.place.min(4294967295) as u32;
        self.reason.number()
    }
}

// An answer that is a count, as C is told it: the number is the result, the others go through references.
pub fn tell_count(answer: Result<u32, Refusal>, place: &mut u32, count: &mut u32) -> u8
    ensures number { result ≡ (told answer).number }
    ensures place { (told answer).place < word_end → place.new ≡ (told answer).place }
    ensures count { count.new ≡ value_or 0 answer }
{
    match answer {
        Ok(counted) => {
            *place = 0;
            *count = counted;
            0
        }
        Err(refusal) => {
            *count = 0;
            refusal.tell(place)
        }
    }
}

// Whether x is 1 to the limit.
fn from_one(limit: u8, x: u8) -> bool
    ensures { result ≡ not (outside limit x) }
{
    if x == 0 {
        return false;
    }
    x <= limit
}

// The header of a problem: n, p, r, and a ceiling for each objective.
#[derive(Clone, Copy)]
pub struct Header {
    pub variables: u8,
    pub objectives: u8,
    pub tables: u32,
    pub ceilings: [u32; 4],
}

impl Header {
    pub const MAX_BYTES: usize = 60000;

    pub const MAX_VARIABLES: u8 = 24;

    pub const MAX_OBJECTIVES: u8 = 4;

    pub const MAX_TABLES: u32 = 256;

    pub fn allows_bytes(length: usize) -> bool
        ensures { result ≡ leb length max_bytes }
    {
        length <= Header::MAX_BYTES
    }

    pub fn allows_variables(n: u8) -> bool
        ensures { result ≡ not (outside max_variables n) }
    {
        from_one(Header::MAX_VARIABLES, n)
    }

    pub fn allows_objectives(p: u8) -> bool
        ensures { result ≡ not (outside max_objectives p) }
    {
        from_one(Header::MAX_OBJECTIVES, p)
    }

    pub fn allows_tables(count: u32) -> bool
        ensures { result ≡ leb count max_tables }
    {
        count <= Header::MAX_TABLES
    }
}

// A variable's domain: the values 0 to size - 1.
#[derive(Clone, Copy)]
pub struct Domain {
    pub size: u8,
}

impl Domain {
    pub const MAX_SIZE: u8 = 8;

    pub fn allows_size(d: u8) -> bool
        ensures { result ≡ not (outside max_domain d) }
    {
        from_one(Domain::MAX_SIZE, d)
    }
}

// A cost record: its objective, its arity, where it starts and how many bytes it has.
#[derive(Clone, Copy)]
pub struct CostRecord {
    pub objective: u8,
    pub arity: u8,
    pub at: usize,
    pub length: usize,
}

impl CostRecord {
    pub const MAX_ARITY: u8 = 3;

    pub fn allows_arity(arity: u8) -> bool
        ensures { result ≡ leb arity max_arity }
    {
        arity <= CostRecord::MAX_ARITY
    }
}

// A point of the frontier as a record: four costs and 24 choices, the unused ones zero.
#[repr(C)]
#[derive(Clone, Copy)]
pub struct Point {
    pub costs: [u32; 4],
    pub choice: [u8; 24],
}

impl Point {
    pub const MAX_COUNT: usize = 64;
}
