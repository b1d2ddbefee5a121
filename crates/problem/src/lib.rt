// Reads a problem: its records in byte order, refusals 1 to 11 with their places, and where each cost record starts.
#![tactic(auto)]

ghost use Rattle.std.specs.Prelude.{◌≡◌, ◌+◌, ◌-◌, ◌*◌, ◌<◌, ◌≤◌, length, get_or, take, drop};
ghost use Rattle.model.specs.Basics.{All};
ghost use Rattle.model.specs.Limits.{max_bytes, max_variables, max_objectives, max_arity, short_end};
ghost use Rattle.model.specs.Problems.{DomainSize, InRange, size_of, has_variable, scope_rule};
ghost use Rattle.model.specs.Reading.{word2, word4, words_in, start_number, head_number, domain_number, table_length};
ghost use Rattle.model.specs.Reading.{table_objective, table_arity, table_scope, tables_verdict, places_at};
ghost use Rattle.model.specs.Reasons.{told, number_in};
ghost use Rattle.model.specs.Calls.{padded, over};
ghost use Rattle.problem.specs.Records.{Headed, Whole, AllWhole};
ghost use Rattle.problem.specs.Says.{HeadSays, start_of, DomainsSays, ScanSays, RecordSays, ReadSays};

use model::{Reason, Refusal};

// A byte as a number of four bytes. The crates above call it.
pub fn wide(x: u8) -> u32
    ensures { result ≡ x }
{
    u32::from(x)
}

// The two-byte number at `at`.
pub fn two_at(s: &[u8], at: usize) -> u32
    requires { at + 2 ≤ length s.now }
    ensures { (result ≡ word2 0 (drop at s.now)) × (result < short_end) }
{
    u32::from(u16::from_le_bytes([s[at], s[at + 1]]))
}

// The four-byte number at `at`.
pub fn four_at(s: &[u8], at: usize) -> u32
    requires { at + 4 ≤ length s.now }
    ensures { result ≡ word4 (drop at s.now) }
{
    u32::from_le_bytes([s[at], s[at + 1], s[at + 2], s[at + 3]])
}

// Whether one of the `count` variables at `at` is `v`.
pub fn is_named(s: &[u8], at: usize, count: usize, v: usize) -> bool
    requires { at + count ≤ length s.now }
    ensures { result ≡ has_variable v (take count (drop at s.now)) }
{
    s[at..at + count].iter().any(|w| *w as usize == v)
}

// The head of the accepted record at `at`: these five alone know where it has its objective, the number of its
// scope's variables, number `k` of them, all of them, and whether `v` is one.
pub fn objective_at(s: &[u8], at: usize) -> usize
    requires { Headed s.now at }
    ensures { result ≡ table_objective (drop at s.now) }
{
    s[at + 2] as usize
}

pub fn arity_at(s: &[u8], at: usize) -> usize
    requires { Headed s.now at }
    ensures { result ≡ table_arity (drop at s.now) }
{
    s[at + 3] as usize
}

pub fn scope_at(s: &[u8], at: usize, k: usize) -> usize
    requires { Headed s.now at × (k < table_arity (drop at s.now)) }
    ensures { result ≡ get_or (table_scope (drop at s.now)) k 0 }
{
    s[at + 4 + k] as usize
}

pub fn scope_of(s: &[u8], at: usize) -> &[u8]
    requires { Headed s.now at }
    ensures { result.now ≡ table_scope (drop at s.now) }
{
    let a = arity_at(s, at);
    let start = at + 4;
    let end = start + a;
    &s[start..end]
}

pub fn has_variable(s: &[u8], at: usize, v: usize) -> bool
    requires { Headed s.now at }
    ensures { result ≡ has_variable v (table_scope (drop at s.now)) }
{
    let a = arity_at(s, at);
    is_named(s, at + 4, a, v)
}

// The mark due at `at`, and the single fields after it.
pub fn check_start(s: &[u8], at: usize, a: u8, b: u8, fields: usize) -> Result<(), Reason>
    requires { (at ≤ length s.now) × (fields ≤ 4) }
    ensures { number_in result ≡ start_number a b fields (drop at s.now) }
{
    let left = s.len() - at;
    if left < 2 {
        return Err(Reason::CutShort);
    }
    if s[at] != a || s[at + 1] != b {
        return Err(Reason::StrayMark);
    }
    if left < 2 + fields {
        return Err(Reason::CutShort);
    }
    Ok(())
}

// The header.
pub fn check_head(s: &[u8]) -> Result<(), Reason>
    ensures { number_in result ≡ head_number s.now }
{
    check_start(s, 0, b'H', b'D', 4)?;
    if !model::Header::allows_variables(s[2]) {
        return Err(Reason::Variables);
    }
    let p = s[3];
    if !model::Header::allows_objectives(p) {
        return Err(Reason::Objectives);
    }
    if !model::Header::allows_tables(two_at(s, 4)) {
        return Err(Reason::Tables);
    }
    if s.len() < 6 + 4 * (p as usize) {
        return Err(Reason::CutShort);
    }
    Ok(())
}

// `count` ceilings after the header's single fields, and zeros.
fn read_ceilings(s: &[u8], count: usize) -> [u32; 4]
    requires { (6 + 4 * count ≤ length s.now) × (count ≤ max_objectives) }
    ensures { result ≡ padded max_objectives (words_in count (drop 6 s.now)) }
{
    let mut ceilings = [0u32; 4];
    for i in 0..count {
        ceilings[i] = four_at(s, 6 + 4 * i);
    }
    ceilings
}

// The header of a problem whose header is not refused.
pub fn read_head(s: &[u8]) -> model::Header
    requires { head_number s.now ≡ 0 }
    ensures { HeadSays s.now result }
{
    let variables = s[2];
    let objectives = s[3];
    let tables = two_at(s, 4);
    let ceilings = read_ceilings(s, objectives as usize);
    model::Header {
        variables,
        objectives,
        tables,
        ceilings,
    }
}

// Where the cost records start, behind the header and its domain records.
pub fn tables_start(head: model::Header) -> usize
    ensures { result ≡ start_of head }
{
    let p = head.objectives as usize;
    let n = head.variables as usize;
    6 + 4 * p + 3 * n
}

// The domain record at `at`.
pub fn check_domain(s: &[u8], at: usize) -> Result<(), Reason>
    requires { at ≤ length s.now }
    ensures { number_in result ≡ domain_number (drop at s.now) }
{
    check_start(s, at, b'D', b'O', 1)?;
    if !model::Domain::allows_size(s[at + 2]) {
        return Err(Reason::Domain);
    }
    Ok(())
}

// The sizes in `n` domain records from `at` on, then zeros.
pub fn read_domains(s: &[u8], at: usize, n: usize) -> Result<[u8; 24], Refusal>
    requires { (at ≤ length s.now) × (n ≤ max_variables) }
    ensures { DomainsSays s.now at n result }
{
    let mut sizes = [0u8; 24];
    let mut here = at;
    for i in 0..n {
        if let Err(reason) = check_domain(s, here) {
            return Err(reason.at(here));
        }
        sizes[i] = s[here + 2];
        here += 3;
    }
    Ok(sizes)
}

// Whether the `arity` variables at `at` are below `n`, and none of them is named again after it.
pub fn scope_ok(s: &[u8], at: usize, arity: usize, n: usize) -> bool
    requires { at + arity ≤ length s.now }
    ensures { result ≡ scope_rule n (take arity (drop at s.now)) }
{
    for i in 0..arity {
        let v = s[at + i] as usize;
        if n <= v || is_named(s, at + i + 1, arity - i - 1, v) {
            return false;
        }
    }
    true
}

// How many entries a table has whose scope is the `arity` variables at `at`.
pub fn size_of(s: &[u8], at: usize, arity: usize, sizes: &[u8]) -> usize
    requires { (at + arity ≤ length s.now) × (arity ≤ max_arity)
        × InRange (length sizes.now) (take arity (drop at s.now)) × All DomainSize sizes.now }
    ensures { (result ≡ size_of sizes.now (take arity (drop at s.now))) × (result ≤ 512) }
{
    let mut size: usize = 1;
    for i in 0..arity {
        let v = s[at + i] as usize;
        size *= sizes[v] as usize;
    }
    size
}

// How many bytes the cost record at `at` has, in a problem with `p` objectives.
pub fn scan_table(s: &[u8], at: usize, p: u8, sizes: &[u8]) -> Result<usize, Reason>
    requires { (at ≤ length s.now) × All DomainSize sizes.now }
    ensures { ScanSays p sizes.now (drop at s.now) result }
{
    check_start(s, at, b'C', b'F', 2)?;
    if p <= s[at + 2] {
        return Err(Reason::Owner);
    }
    let arity = s[at + 3];
    if !model::CostRecord::allows_arity(arity) {
        return Err(Reason::Arity);
    }
    let a = arity as usize;
    let left = s.len() - at;
    if left < 4 + a {
        return Err(Reason::CutShort);
    }
    if !scope_ok(s, at + 4, a, sizes.len()) {
        return Err(Reason::Scope);
    }
    let length = 4 + (a + 4 * size_of(s, at + 4, a, sizes));
    if left < length {
        return Err(Reason::CutShort);
    }
    Ok(length)
}

// `r` cost records from `at` on, and nothing after them.
pub fn scan_tables(s: &[u8], at: usize, r: u32, p: u8, sizes: &[u8]) -> Result<(), Refusal>
    requires { (at ≤ length s.now) × All DomainSize sizes.now }
    ensures { told result ≡ tables_verdict r p sizes.now s.now at }
{
    let mut here = at;
    for _ in 0..r {
        match scan_table(s, here, p, sizes) {
            Ok(length) => here += length,
            Err(reason) => return Err(reason.at(here)),
        }
    }
    if here < s.len() {
        return Err(Reason::Leftover.at(here));
    }
    Ok(())
}

// What reading a problem finds: the header and the domain sizes.
#[derive(Clone, Copy)]
pub struct Problem {
    pub head: model::Header,
    pub sizes: [u8; 24],
}

pub fn read_problem(s: &[u8]) -> Result<Problem, Refusal>
    ensures { ReadSays s.now result }
{
    if !model::Header::allows_bytes(s.len()) {
        return Err(Reason::Oversize.at(0));
    }
    if let Err(reason) = check_head(s) {
        return Err(reason.at(0));
    }
    let head = read_head(s);
    let n = head.variables as usize;
    let p = head.objectives;
    let start = 6 + 4 * (p as usize);
    let sizes = read_domains(s, start, n)?;
    scan_tables(s, tables_start(head), head.tables, p, &sizes[..n])?;
    Ok(Problem { head, sizes })
}

// The fields of the accepted cost record at `at`.
fn fields_at(s: &[u8], at: usize, sizes: &[u8]) -> model::CostRecord
    requires { Whole sizes.now s.now at × All DomainSize sizes.now }
    ensures { RecordSays sizes.now s.now at result }
{
    let arity = s[at + 3];
    let a = arity as usize;
    let length = 4 + (a + 4 * size_of(s, at + 4, a, sizes));
    model::CostRecord {
        objective: s[at + 2],
        arity,
        at,
        length,
    }
}

// Where the accepted cost record at `at` ends: the next one's place.
fn next_place(s: &[u8], at: usize, sizes: &[u8]) -> usize
    requires { Whole sizes.now s.now at × All DomainSize sizes.now }
    ensures { result ≡ at + table_length sizes.now (drop at s.now) }
{
    let t = fields_at(s, at, sizes);
    at + t.length
}

// The reader: a problem's bytes, and its place in them. The functions over it are proved by
// hand; each takes it apart and leaves the work to a function on a plain slice.
#[derive(Clone, Copy)]
pub struct Reader<'a> {
    pub bytes: &'a [u8],
    pub at: usize,
}

impl<'a> Reader<'a> {
    pub fn new(bytes: &'a [u8], at: usize) -> Reader<'a>
        ensures { (result.bytes ≡ bytes.entry) × (result.at ≡ at) }
    {
        Reader { bytes, at }
    }

    // The fields of the accepted cost record at its place.
    pub fn cost_record(self, sizes: &[u8]) -> model::CostRecord
        requires { Whole sizes.now self.bytes.now self.at × All DomainSize sizes.now }
        ensures { RecordSays sizes.now self.entry.bytes.now self.entry.at result }
    {
        fields_at(self.bytes, self.at, sizes)
    }

    // The reader behind the accepted cost record at its place.
    pub fn next(self, sizes: &[u8]) -> Reader<'a>
        requires { Whole sizes.now self.bytes.now self.at × All DomainSize sizes.now }
        ensures { (result.bytes ≡ self.entry.bytes)
            × (result.at ≡ self.entry.at
            + table_length sizes.now (drop self.entry.at self.entry.bytes.now)) }
    {
        let at = next_place(self.bytes, self.at, sizes);
        Reader {
            bytes: self.bytes,
            at,
        }
    }
}

// The fields of the accepted cost record at `at`, by a reader: what callers with a plain slice call.
pub fn record_at(s: &[u8], at: usize, sizes: &[u8]) -> model::CostRecord
    requires { Whole sizes.now s.now at × All DomainSize sizes.now }
    ensures { RecordSays sizes.now s.now at result }
{
    Reader::new(s, at).cost_record(sizes)
}

// Where the record behind the accepted cost record at `at` starts, by a reader: what callers with a plain slice call.
pub fn place_after(s: &[u8], at: usize, sizes: &[u8]) -> usize
    requires { Whole sizes.now s.now at × All DomainSize sizes.now }
    ensures { result ≡ at + table_length sizes.now (drop at s.now) }
{
    Reader::new(s, at).next(sizes).at
}

// Writes where each of the `r` accepted cost records from `at` on starts over the front of a buffer.
pub fn keep_places(s: &[u8], at: usize, r: u32, sizes: &[u8], places: &mut [u32])
    requires { AllWhole r sizes.now s.now at × All DomainSize sizes.now × (r ≤ length places.old)
        × (length s.now ≤ max_bytes) }
    ensures { places.new
        ≡ over (places_at r sizes.now s.now at) places.old }
{
    let count = r as usize;
    let mut here = at;
    for i in 0..count {
        places[i] = here as u32;
        here = place_after(s, here, sizes);
    }
}
