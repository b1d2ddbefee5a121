// What is refused of a WCSP text, and how long its records are.
#![tactic(auto)]

ghost use Rattle.std.specs.Prelude.{◌≡◌, true, false, [], ℕ, suc, ◌+◌, ◌-◌, ◌*◌, ◌≤◌, ◌<◌, min, ltb, length};
ghost use Rattle.std.specs.Prelude.{get_or, take};
ghost use Rattle.std.specs.Prelude.{set};
ghost use Rattle.model.specs.Basics.{All};
ghost use Rattle.model.specs.Limits.{max_domain};
ghost use Rattle.model.specs.Reasons.{number_in};
ghost use Rattle.model.specs.Problems.{DomainSize};
ghost use Rattle.text_words.specs.Texts.{value_from};
ghost use Rattle.text_words.specs.Reads.{words_at, cap_end, numeral, DigitsAt};
ghost use Rattle.text_networks.specs.Findings.{dialect, find_if, term_at, runs};
ghost use Rattle.text_networks.specs.Networks.{cost_finding, declared_finding, values_finding, tuple_finding};
ghost use Rattle.text_networks.specs.Networks.{repeated};
ghost use Rattle.text_checking.specs.declared.Found.TheVariants.{Nothing};
ghost use Rattle.text_checking.specs.Codes.{rank, found_of, both, limited_code, count_code, number_code};
ghost use Rattle.text_checking.specs.Sizes.{half, entry_of, size_held, sizes_held, domains_at, Indexed, scope_sizes};
ghost use Rattle.text_checking.specs.Steps.{Checked, WordsSkipped, ScopeSays, CountsSays, TableSays, OverSays};
ghost use Rattle.text_checking.specs.Steps.{FunctionSays, FunctionsSays, SizeSays, SizesSays, HeadSays};
ghost use Rattle.text_checking.specs.Steps.{NetworkSays};
ghost use Rattle.text_checking.specs.Steps.{record_bytes, Plain, FarSays, FrontSays, BodySays};

use model::Reason;
use text_words::{Kind, Number};

// Entries of at least this number stand for sizes that are too large for an entry.
const HALF: u64 = 9223372036854775808;

// What is found: nothing, what is refused, what ends the reading so, what is not the format.
#[derive(Clone, Copy, PartialEq, Eq)]
pub enum Found {
    Nothing,
    Dialect,
    Stop,
    Fault,
}

// What is found, and the place behind what was read. The structs that tell more each name what it is, which one
// generic struct could not.
#[derive(Clone, Copy)]
pub struct Step {
    pub finding: Found,
    pub next: usize,
}

// How many variables are declared, and the place of their domain sizes.
#[derive(Clone, Copy)]
pub struct Declared {
    pub variables: u64,
    pub sizes: usize,
}

// How many more variables a scope has, and the place of their words.
#[derive(Clone, Copy)]
pub struct Far {
    pub count: u64,
    pub at: usize,
}

// The same of a default cost and the number of tuples, which is told up to the cap.
#[derive(Clone, Copy)]
pub struct Counted {
    pub finding: Found,
    pub next: usize,
    pub count: u64,
}

// The same of a function, with the bytes of its record where nothing is found.
#[derive(Clone, Copy)]
pub struct Function {
    pub finding: Found,
    pub next: usize,
    pub bytes: usize,
}

// The same of a domain size, whether it is the largest that is stated, and its entry.
#[derive(Clone, Copy)]
pub struct Sized {
    pub finding: Found,
    pub next: usize,
    pub met: bool,
    pub entry: u64,
}

// The same of all domain sizes.
#[derive(Clone, Copy)]
pub struct Sizes {
    pub finding: Found,
    pub next: usize,
    pub met: bool,
}

// The same of what stands before the domain sizes.
#[derive(Clone, Copy)]
pub struct Head {
    pub finding: Found,
    pub next: usize,
    pub variables: u64,
    pub functions: u64,
    pub largest: Number,
}

// What is found, and the bytes of all records where nothing is found.
#[derive(Clone, Copy)]
pub struct Body {
    pub finding: Found,
    pub bytes: usize,
}

#[tactic(auto, unfolding(crate::specs::Codes::both))]
fn and_then(a: Found, b: Found) -> Found
    ensures { result ≡ both a b }
{
    match (a, b) {
        (Found::Nothing, _) => b,
        (Found::Dialect, Found::Nothing) => a,
        (Found::Dialect, _) => b,
        _ => a,
    }
}

// Whether nothing is read behind what is found.
fn decides(f: Found) -> bool
    ensures { (result ≡ true → 2 ≤ rank f) × (result ≡ false → rank f < 2) }
{
    matches!(f, Found::Stop | Found::Fault)
}

// What is found in a field that is to be from `least` to `most`, and `below` where it is negative.
#[tactic(auto, unfolding(crate::specs::Codes::limited_code))]
fn limited(x: Number, least: u64, most: u64, below: Found) -> Found
    ensures { result ≡ limited_code x.kind x.value least most below }
{
    match x.kind {
        Kind::Natural if x.value < least || most < x.value => Found::Dialect,
        Kind::Natural => Found::Nothing,
        Kind::Negative => below,
        Kind::Other => Found::Fault,
    }
}

fn check_cost(s: &[u8], at: usize) -> Step
    requires { at ≤ length s.now }
    ensures { Checked s.now (found_of (cost_finding (term_at 0 (words_at s.now at)))) 1 at result }
{
    let x = text_words::read_number(s, at);
    Step {
        finding: limited(x, 0, 4294967295, Found::Stop),
        next: x.end,
    }
}

#[tactic(auto, unfolding(crate::specs::Sizes::entry_of))]
fn entry_of(value: u64, place: usize) -> u64
    requires { place < half }
    ensures { result ≡ entry_of value place }
{
    if value < HALF {
        return value;
    }
    HALF + place as u64
}

// Whether a number is less than the size that an entry holds.
fn is_below(s: &[u8], x: Number, e: u64) -> bool
    requires { DigitsAt s.now x }
    ensures { result ≡ ltb (value_from 0 (numeral s.now x)) (size_held s.now e) }
{
    if e < HALF {
        return x.value < e;
    }
    if x.value < HALF {
        return true;
    }
    let place = (e - HALF) as usize;
    if s.len() < place {
        return false;
    }
    let size = text_words::read_number(s, place);
    if size.kind != Kind::Natural {
        return false;
    }
    text_words::is_less(s, x, size)
}

// The value of a variable whose size the entry holds.
fn check_value(s: &[u8], at: usize, e: u64) -> Step
    requires { at ≤ length s.now }
    ensures { Checked s.now
        (found_of (declared_finding (size_held s.now e) (term_at 0 (words_at s.now at)))) 1 at result }
{
    let x = text_words::read_number(s, at);
    let next = x.end;
    if x.kind != Kind::Natural {
        return Step {
            finding: Found::Fault,
            next,
        };
    }
    if is_below(s, x, e) {
        return Step {
            finding: Found::Nothing,
            next,
        };
    }
    Step {
        finding: Found::Fault,
        next,
    }
}

fn check_values(s: &[u8], at: usize, entries: &[u64]) -> Step
    requires { at ≤ length s.now }
    ensures { Checked s.now
        (found_of (values_finding (sizes_held s.now entries.now) (words_at s.now at)))
        (length entries.now) at result }
{
    let mut next = at;
    for e in entries {
        let step = check_value(s, next, *e);
        if step.finding != Found::Nothing {
            return step;
        }
        next = step.next;
    }
    Step {
        finding: Found::Nothing,
        next,
    }
}

// The place behind `n` words.
fn skip_words(s: &[u8], at: usize, n: u64) -> usize
    requires { at ≤ length s.now }
    ensures { WordsSkipped s.now at n result }
{
    let mut next = at;
    for _i in 0..n {
        next = text_words::read_number(s, next).end;
    }
    next
}

// An entry for the size of variable `v`, 0 where it is not declared.
fn size_entry(s: &[u8], v: u64, declared: Declared, index: &[u64]) -> u64
    requires { Indexed s.now declared index.now }
    ensures { size_held s.now result ≡ get_or (domains_at s.now declared) v 0 }
{
    if declared.variables <= v {
        return 0;
    }
    let i = v as usize;
    if i < index.len() {
        return index[i];
    }
    let place = skip_words(s, declared.sizes, v);
    let x = text_words::read_number(s, place);
    entry_of(x.value, place)
}

// A number in a list, where the list has the place. (By `get_mut` the proof did not close.)
fn put(list: &mut [u64], i: u64, x: u64)
    ensures { list.new ≡ set list.old i x }
{
    let at = i as usize;
    if at < list.len() {
        list[at] = x;
    }
}

// The variables of a scope; as many as `scope` has room for are left there.
fn check_scope(s: &[u8], at: usize, arity: u64, variables: u64, scope: &mut [u64]) -> Step
    requires { (at ≤ length s.now) × (variables ≤ cap_end) }
    ensures { ScopeSays s.now at arity variables scope.new result }
{
    let mut next = at;
    for i in 0..arity {
        let v = text_words::read_number(s, next);
        if v.kind != Kind::Natural {
            return Step {
                finding: Found::Fault,
                next,
            };
        }
        let variable = v.value;
        if variables <= variable {
            return Step {
                finding: Found::Fault,
                next,
            };
        }
        put(scope, i, variable);
        next = v.end;
    }
    Step {
        finding: Found::Nothing,
        next,
    }
}

// Each of the first variables of a scope becomes an entry for its size.
fn to_entries(s: &[u8], declared: Declared, index: &[u64], scope: &mut [u64], count: usize)
    requires { Indexed s.now declared index.now × (count ≤ length scope.old) }
    ensures { (k : ℕ) → k < count → size_held s.now (get_or scope.new k 0)
        ≡ get_or (domains_at s.now declared) (get_or scope.old k 0) 0 }
{
    for i in 0..count {
        scope[i] = size_entry(s, scope[i], declared, index);
    }
}

// Whether a scope of at most three variables has one twice.
fn repeats(scope: &[u64], arity: u64) -> bool
    requires { (arity ≤ 3) × (arity ≤ length scope.now) }
    ensures { result ≡ repeated (take arity scope.now) }
{
    if arity < 2 {
        return false;
    }
    let a = scope[0];
    let b = scope[1];
    if b == a {
        return true;
    }
    if arity < 3 {
        return false;
    }
    let c = scope[2];
    if c == a {
        return true;
    }
    c == b
}

// The values of variables for which there are no entries.
fn check_far(s: &[u8], at: usize, far: Far, declared: Declared, index: &[u64]) -> Step
    requires { (at ≤ length s.now) × (far.at ≤ length s.now) × Indexed s.now declared index.now }
    ensures { Checked s.now
        (found_of (values_finding (scope_sizes s.now [] far declared) (words_at s.now at)))
        far.count at result }
{
    let mut next = at;
    let mut word = far.at;
    for _i in 0..far.count {
        let v = text_words::read_number(s, word);
        let e = size_entry(s, v.value, declared, index);
        let step = check_value(s, next, e);
        if step.finding != Found::Nothing {
            return step;
        }
        next = step.next;
        word = v.end;
    }
    Step {
        finding: Found::Nothing,
        next,
    }
}

fn check_tuple(
    s: &[u8],
    at: usize,
    entries: &[u64],
    far: Far,
    declared: Declared,
    index: &[u64],
) -> Step
    requires { (at ≤ length s.now) × (far.at ≤ length s.now) × Indexed s.now declared index.now }
    ensures { Checked s.now
        (found_of (tuple_finding (scope_sizes s.now entries.now far declared)
        (words_at s.now at)))
        (suc (length entries.now + far.count)) at result }
{
    let values = check_values(s, at, entries);
    if values.finding != Found::Nothing {
        return values;
    }
    let more = check_far(s, values.next, far, declared, index);
    if more.finding != Found::Nothing {
        return more;
    }
    check_cost(s, more.next)
}

fn check_tuples(
    s: &[u8],
    at: usize,
    count: u64,
    entries: &[u64],
    far: Far,
    declared: Declared,
    index: &[u64],
) -> Step
    requires { (at ≤ length s.now) × (far.at ≤ length s.now) × Indexed s.now declared index.now }
    ensures { Checked s.now
        (found_of (runs count (tuple_finding (scope_sizes s.now entries.now far declared))
        (suc (length entries.now + far.count)) (words_at s.now at)))
        (count * suc (length entries.now + far.count)) at result }
{
    let mut finding = Found::Nothing;
    let mut next = at;
    for _i in 0..count {
        let step = check_tuple(s, next, entries, far, declared, index);
        finding = and_then(finding, step.finding);
        next = step.next;
        if decides(finding) {
            return Step { finding, next };
        }
    }
    Step { finding, next }
}

// What is found in the number of tuples: without variables there are none.
#[tactic(auto, unfolding(crate::specs::Codes::count_code))]
fn count_code(x: Number, arity: u64) -> Found
    ensures { result ≡ count_code x.kind x.value arity }
{
    match x.kind {
        Kind::Natural if arity == 0 && 0 < x.value => Found::Fault,
        Kind::Natural => Found::Nothing,
        Kind::Negative => Found::Stop,
        Kind::Other => Found::Fault,
    }
}

fn check_counts(s: &[u8], at: usize, arity: u64) -> Counted
    requires { at ≤ length s.now }
    ensures { CountsSays s.now arity at result }
{
    let cost = check_cost(s, at);
    let x = text_words::read_number(s, cost.next);
    Counted {
        finding: and_then(cost.finding, count_code(x, arity)),
        next: x.end,
        count: x.value,
    }
}

// Entry `i`, 0 where there is none; of sizes that fit a byte.
fn byte_at(entries: &[u64], i: usize) -> u8
    requires { All DomainSize entries.now }
    ensures { result ≡ get_or entries.now i 0 }
{
    entries.get(i).map_or(0, |e| *e as u8)
}

fn small_sizes(entries: &[u64]) -> [u8; 3]
    requires { (length entries.now ≤ 3) × All DomainSize entries.now }
    ensures { take (length entries.now) result ≡ entries.now }
{
    [
        byte_at(entries, 0),
        byte_at(entries, 1),
        byte_at(entries, 2),
    ]
}

// Entry `i`, 1 where there is none.
fn factor(entries: &[u64], i: usize) -> usize
    requires { All DomainSize entries.now }
    ensures { (result ≡ get_or entries.now i 1) × (result ≤ max_domain) }
{
    entries.get(i).map_or(1, |e| *e as usize)
}

fn record_bytes(entries: &[u64]) -> usize
    requires { (length entries.now ≤ 3) × All DomainSize entries.now }
    ensures { (result ≡ record_bytes entries.now) × (result ≤ 2055) }
{
    let a = factor(entries, 0);
    let b = factor(entries, 1);
    let c = factor(entries, 2);
    4 + (entries.len() + 4 * (a * (b * c)))
}

// The tuples of a function. Whether one is given twice matters only where nothing else is found.
fn check_table(
    s: &[u8],
    start: Counted,
    entries: &[u64],
    far: Far,
    declared: Declared,
    index: &[u64],
) -> Function
    requires { (start.next ≤ length s.now) × (far.at ≤ length s.now) × Indexed s.now declared index.now
        × (rank start.finding < 2) × (start.finding ≡ Nothing → Plain s.now start entries.now far) }
    ensures { TableSays s.now start
        (scope_sizes s.now entries.now far declared) result }
{
    let tuples = check_tuples(s, start.next, start.count, entries, far, declared, index);
    let finding = and_then(start.finding, tuples.finding);
    let next = tuples.next;
    if finding != Found::Nothing {
        return Function {
            finding,
            next,
            bytes: 0,
        };
    }
    let bytes = record_bytes(entries);
    let sizes = small_sizes(entries);
    if text_tuples::tuples_repeat(s, start.next, start.count, entries.len(), sizes) {
        return Function {
            finding: Found::Dialect,
            next,
            bytes,
        };
    }
    Function {
        finding: Found::Nothing,
        next,
        bytes,
    }
}

// What is found of a variable that a scope has twice; of more than three variables, which are refused, nothing.
fn twice_code(scope: &[u64], arity: u64) -> Found
    requires { 3 ≤ length scope.now }
    ensures { (rank result ≤ 1)
        × (arity ≤ 3 → result ≡ found_of (find_if (repeated (take arity scope.now)) dialect)) }
{
    if 3 < arity {
        return Found::Nothing;
    }
    if repeats(scope, arity) {
        return Found::Dialect;
    }
    Found::Nothing
}

// The variables of a scope at `at` behind the first `near` ones.
fn far_of(s: &[u8], at: usize, arity: u64, near: usize) -> Far
    requires { (at ≤ length s.now) × (near ≤ arity) }
    ensures { FarSays s.now at arity near result }
{
    let count = arity - near as u64;
    if count == 0 {
        return Far { count, at };
    }
    Far {
        count,
        at: skip_words(s, at, near as u64),
    }
}

// A function behind its arity up to the number of tuples; `scope` has room for three variables at least.
fn check_front(s: &[u8], start: Step, arity: u64, variables: u64, scope: &mut [u64]) -> Counted
    requires { (start.next ≤ length s.now) × (variables ≤ cap_end) × (3 ≤ length scope.old)
        × (start.finding ≡ Nothing → arity ≤ 3) }
    ensures { FrontSays s.now start arity variables scope.new result }
{
    let over = check_scope(s, start.next, arity, variables, scope);
    let scoped = and_then(start.finding, over.finding);
    let once = and_then(scoped, twice_code(scope, arity));
    let counts = check_counts(s, over.next, arity);
    Counted {
        finding: and_then(once, counts.finding),
        next: counts.next,
        count: counts.count,
    }
}

// A function behind its arity.
fn check_over(
    s: &[u8],
    start: Step,
    arity: u64,
    declared: Declared,
    index: &[u64],
    scope: &mut [u64],
) -> Function
    requires { (start.next ≤ length s.now) × Indexed s.now declared index.now × (3 ≤ length scope.old)
        × (start.finding ≡ Nothing → (arity ≤ 3) × All DomainSize (domains_at s.now declared)) }
    ensures { OverSays s.now start arity declared result }
{
    let counted = check_front(s, start, arity, declared.variables, scope);
    if decides(counted.finding) {
        return Function {
            finding: counted.finding,
            next: counted.next,
            bytes: 0,
        };
    }
    let near = arity.min(scope.len() as u64) as usize;
    to_entries(s, declared, index, scope, near);
    let far = far_of(s, start.next, arity, near);
    check_table(s, counted, &scope[..near], far, declared, index)
}

// A function behind an arity that is refused; of its scope the first variables have entries.
fn check_wide(s: &[u8], start: Step, arity: u64, declared: Declared, index: &[u64]) -> Function
    requires { (start.next ≤ length s.now) × Indexed s.now declared index.now
        × (start.finding ≡ Nothing → (arity ≤ 3) × All DomainSize (domains_at s.now declared)) }
    ensures { OverSays s.now start arity declared result }
{
    let mut scope = [0u64; 4096];
    check_over(s, start, arity, declared, index, &mut scope)
}

// A function, behind what was found before.
fn check_function(s: &[u8], at: usize, found: Found, declared: Declared, index: &[u64]) -> Function
    requires { (at ≤ length s.now) × Indexed s.now declared index.now × (rank found < 2)
        × (found ≡ Nothing → All DomainSize (domains_at s.now declared)) }
    ensures { FunctionSays s.now found at declared result }
{
    let x = text_words::read_number(s, at);
    let arity = x.value;
    let start = Step {
        finding: and_then(found, limited(x, 0, 3, Found::Stop)),
        next: x.end,
    };
    if 3 < arity {
        return check_wide(s, start, arity, declared, index);
    }
    let mut scope = [0u64; 3];
    check_over(s, start, arity, declared, index, &mut scope)
}

// A sum of bytes that never wraps.
fn added(a: usize, b: usize) -> usize
    requires { b ≤ 2055 }
    ensures { a ≤ 1000000 → result ≡ a + b }
{
    if a <= 1000000 {
        return a + b;
    }
    a
}

// The functions behind records of `front` bytes.
fn check_functions(
    s: &[u8],
    start: Step,
    count: u64,
    front: usize,
    declared: Declared,
    index: &[u64],
) -> Body
    requires { (start.next ≤ length s.now) × Indexed s.now declared index.now × (rank start.finding < 2)
        × (start.finding ≡ Nothing → All DomainSize (domains_at s.now declared) × (count ≤ 256) × (front ≤ 82)) }
    ensures { FunctionsSays s.now start count front declared result }
{
    let mut finding = start.finding;
    let mut next = start.next;
    let mut bytes = front;
    for _i in 0..count {
        let one = check_function(s, next, finding, declared, index);
        finding = one.finding;
        if decides(finding) {
            return Body { finding, bytes };
        }
        next = one.next;
        bytes = added(bytes, one.bytes);
    }
    let word = text_words::next_word(s, next);
    if word.start != word.end {
        return Body {
            finding: Found::Fault,
            bytes,
        };
    }
    Body { finding, bytes }
}

// A number without its leading zeros, which no comparison walks again.
fn bare(s: &[u8], x: Number) -> Number
    requires { DigitsAt s.now x }
    ensures { DigitsAt s.now result × (value_from 0 (numeral s.now result)
        ≡ value_from 0 (numeral s.now x)) }
{
    let from = text_words::skip_zeros(s, x.from, x.end);
    Number {
        kind: x.kind,
        value: x.value,
        from,
        end: x.end,
    }
}

// A domain size, by the largest one that is stated.
fn check_size(s: &[u8], at: usize, most: Number) -> Sized
    requires { (at ≤ length s.now) × DigitsAt s.now most }
    ensures { SizeSays s.now at (value_from 0 (numeral s.now most)) result }
{
    let x = text_words::read_number(s, at);
    let next = x.end;
    let finding = limited(x, 1, 8, Found::Stop);
    if x.kind != Kind::Natural {
        return Sized {
            finding,
            next,
            met: false,
            entry: 0,
        };
    }
    if text_words::is_less(s, most, x) {
        return Sized {
            finding: Found::Fault,
            next,
            met: false,
            entry: 0,
        };
    }
    let met = !text_words::is_less(s, x, most);
    Sized {
        finding,
        next,
        met,
        entry: entry_of(x.value, at),
    }
}

// The domain sizes of `n` variables; the index has the entries of the first ones.
fn check_sizes(s: &[u8], at: usize, n: u64, most: Number, index: &mut [u64]) -> Sizes
    requires { (at ≤ length s.now) × DigitsAt s.now most }
    ensures { SizesSays s.now at n (value_from 0 (numeral s.now most))
        index.new result }
{
    let mut finding = Found::Nothing;
    let mut next = at;
    let mut met = most.value == 0;
    for i in 0..n {
        let size = check_size(s, next, most);
        finding = and_then(finding, size.finding);
        next = size.next;
        if decides(finding) {
            return Sizes { finding, next, met };
        }
        met |= size.met;
        put(index, i, size.entry);
    }
    Sizes { finding, next, met }
}

// What stands between the name and the domain sizes.
fn check_head(s: &[u8], at: usize) -> Head
    requires { at ≤ length s.now }
    ensures { HeadSays s.now at result }
{
    let variables = text_words::read_number(s, at);
    let largest = text_words::read_number(s, variables.end);
    let functions = text_words::read_number(s, largest.end);
    let bound = text_words::read_number(s, functions.end);
    let sizes = and_then(
        limited(variables, 1, 24, Found::Fault),
        limited(largest, 0, 18446744073709551610, Found::Fault),
    );
    let costs = and_then(
        limited(functions, 0, 256, Found::Fault),
        limited(bound, 1, 4294967295, Found::Stop),
    );
    Head {
        finding: and_then(sizes, costs),
        next: bound.end,
        variables: variables.value,
        functions: functions.value,
        largest,
    }
}

// The bytes of the header and of `n` domain records.
fn front_bytes(n: u64) -> usize
    ensures { n ≤ 24 → result ≡ 10 + 3 * n }
{
    if n <= 24 {
        return 10 + 3 * (n as usize);
    }
    0
}

// The domain sizes and the functions behind a head.
fn check_body(s: &[u8], at: usize, head: Head, index: &mut [u64]) -> Body
    requires { HeadSays s.now at head × (rank head.finding < 2) }
    ensures { BodySays s.now at result }
{
    let largest = head.largest;
    let most = bare(s, largest);
    let sizes = check_sizes(s, head.next, head.variables, most, index);
    let finding = and_then(head.finding, sizes.finding);
    if decides(finding) {
        return Body { finding, bytes: 0 };
    }
    if !sizes.met {
        return Body {
            finding: Found::Fault,
            bytes: 0,
        };
    }
    let declared = Declared {
        variables: head.variables,
        sizes: head.next,
    };
    let start = Step {
        finding,
        next: sizes.next,
    };
    check_functions(
        s,
        start,
        head.functions,
        front_bytes(head.variables),
        declared,
        index,
    )
}

// The same where there are more variables than a problem may have.
fn check_many(s: &[u8], at: usize, head: Head) -> Body
    requires { HeadSays s.now at head × (rank head.finding < 2) }
    ensures { BodySays s.now at result }
{
    let mut index = [0u64; 65536];
    check_body(s, at, head, &mut index)
}

// What is behind the name.
fn check_rest(s: &[u8], at: usize) -> Body
    requires { at ≤ length s.now }
    ensures { BodySays s.now at result }
{
    let head = check_head(s, at);
    if decides(head.finding) {
        return Body {
            finding: head.finding,
            bytes: 0,
        };
    }
    if 24 < head.variables {
        return check_many(s, at, head);
    }
    let mut index = [0u64; 24];
    check_body(s, at, head, &mut index)
}

// The reason to refuse what is found.
#[tactic(auto, unfolding(crate::specs::Codes::number_code))]
fn refusal(finding: Found) -> Result<(), Reason>
    ensures { number_in result ≡ number_code finding }
{
    match finding {
        Found::Nothing => Ok(()),
        Found::Dialect | Found::Stop => Err(Reason::Dialect),
        Found::Fault => Err(Reason::Text),
    }
}

// The bytes of all records of a text, or why it is refused.
pub fn check_network(s: &[u8]) -> Result<usize, Reason>
    ensures { NetworkSays s.now result }
{
    let name = text_words::next_word(s, 0);
    if name.start == name.end {
        return Err(Reason::Text);
    }
    let body = check_rest(s, name.end);
    refusal(body.finding)?;
    Ok(body.bytes)
}
