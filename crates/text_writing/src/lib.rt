// From the bytes of a problem with one objective to its WCSP text; or a refusal.
#![tactic(auto)]

ghost use Rattle.std.specs.Prelude.{◌≡◌, ◌||◌, ◌+◌, ◌≤◌, ◌<◌, ltb, length, get_or, take, drop};
ghost use Rattle.model.specs.Basics.{All};
ghost use Rattle.model.specs.Limits.{max_arity, word_end};
ghost use Rattle.model.specs.Problems.{DomainSize};
ghost use Rattle.model.specs.Reading.{table_scope, table_of, problem_of};
ghost use Rattle.problem.specs.Records.{Headed, Whole, AllWhole};
ghost use Rattle.costs.specs.Entries.{entries_at};
ghost use Rattle.text_lines.specs.Written.{Written};
ghost use Rattle.text_networks.specs.Networks.{max_bound, sizes_over, largest_of};
ghost use Rattle.text_networks.specs.NetworkTexts.{upper_bound_for, written_cost, is_nonzero, nonzero, entry_values};
ghost use Rattle.text_networks.specs.NetworkTexts.{function_text, functions_text, network_text};
ghost use Rattle.text_writing.specs.Forms.{first_line, head_line, written_at, written_from, entry_line, table_lines};
ghost use Rattle.text_networks.specs.Conversions.{to_text_outcome};
ghost use Rattle.text_networks.specs.Says.{ConvertSays};
ghost use Rattle.text_writing.specs.Opened.{Opened};

use model::{Reason, Refusal};

// 1 for an entry that becomes a tuple, 0 for another.
fn tuple_of(cost: u32) -> u32
    ensures { result ≡ is_nonzero cost }
{
    if cost == 0 {
        return 0;
    }
    1
}

// An entry as it is written: a forbidden one as the upper bound.
fn written_cost(cost: u32, bound: u32) -> u32
    ensures { result ≡ written_cost bound cost }
{
    if cost == 4294967295 {
        return bound;
    }
    cost
}

// How many entries of the table of the record at `at` are not 0.
fn count_nonzero(s: &[u8], at: usize, sizes: &[u8]) -> u32
    requires { Whole sizes.now s.now at × All DomainSize sizes.now }
    ensures { result ≡ nonzero (table_of sizes.now (drop at s.now)).costs }
{
    let entries = costs::entries_of(s, at, sizes);
    let mut count: u32 = 0;
    for i in 0..entries {
        count += tuple_of(costs::number_at(s, at, i, sizes));
    }
    count
}

// The values at entry `i` of that table, found from the last one on, which runs fastest.
fn values_at(s: &[u8], at: usize, i: usize, sizes: &[u8]) -> [u8; 3]
    requires { Whole sizes.now s.now at × All DomainSize sizes.now }
    ensures { take (length (table_scope (drop at s.now))) result
        ≡ entry_values (sizes_over sizes.now (table_scope (drop at s.now))) i }
{
    let mut values = [0u8; 3];
    let mut left = i;
    for k in (0..problem::arity_at(s, at)).rev() {
        let v = problem::scope_at(s, at, k);
        let d = sizes[v] as usize;
        values[k] = (left % d) as u8;
        left = left / d;
    }
    values
}

// The line of entry `i`, and nothing if it is 0.
fn put_entry(
    s: &[u8],
    at: usize,
    i: usize,
    sizes: &[u8],
    bound: u32,
    to: usize,
    out: &mut [u8],
) -> usize
    requires { Whole sizes.now s.now at × All DomainSize sizes.now
        × (i < entries_at sizes.now s.now at)
        × (to + length (entry_line bound sizes.now s.now at i) ≤ word_end) }
    ensures { Written to (entry_line bound sizes.now s.now at i)
        out.old out.new result }
{
    let cost = written_cost(costs::number_at(s, at, i, sizes), bound);
    if cost == 0 {
        return to;
    }
    let arity = problem::arity_at(s, at);
    let values = values_at(s, at, i, sizes);
    text_lines::put_line(&values[..arity], cost, to, out)
}

// The lines of all entries that are not 0.
fn put_tuples(s: &[u8], at: usize, sizes: &[u8], bound: u32, to: usize, out: &mut [u8]) -> usize
    requires { Whole sizes.now s.now at × All DomainSize sizes.now
        × (to + length (table_lines bound sizes.now s.now at) ≤ word_end) }
    ensures { Written to (table_lines bound sizes.now s.now at)
        out.old out.new result }
{
    let entries = costs::entries_of(s, at, sizes);
    let mut next = to;
    for k in 0..entries {
        next = put_entry(s, at, k, sizes, bound, next, out);
    }
    next
}

// A function's first line: its arity, its scope, its default cost and how many tuples it has.
fn put_head(s: &[u8], at: usize, default: u32, count: u32, to: usize, out: &mut [u8]) -> usize
    requires { Headed s.now at × (length (table_scope (drop at s.now)) ≤ max_arity)
        × (to + length (head_line s.now at default count) ≤ word_end) }
    ensures { Written to (head_line s.now at default count) out.old out.new result }
{
    let scope = problem::scope_of(s, at);
    let behind_arity = text_lines::put_number(scope.len() as u32, b' ', to, out);
    let behind_scope = text_lines::put_spaced(scope, behind_arity, out);
    let behind_default = text_lines::put_number(default, b' ', behind_scope, out);
    text_lines::put_number(count, b'\n', behind_default, out)
}

// The cost function of the record at `at`. Without variables its entry is the default.
fn put_function(s: &[u8], at: usize, sizes: &[u8], bound: u32, to: usize, out: &mut [u8]) -> usize
    requires { Whole sizes.now s.now at × All DomainSize sizes.now × (1 ≤ bound)
        × (to + length (function_text sizes.now (written_at bound sizes.now s.now at)) ≤ word_end) }
    ensures { Written to
        (function_text sizes.now (written_at bound sizes.now s.now at))
        out.old out.new result }
{
    if problem::arity_at(s, at) == 0 {
        let entry = written_cost(costs::number_at(s, at, 0, sizes), bound);
        return put_head(s, at, entry, 0, to, out);
    }
    let count = count_nonzero(s, at, sizes);
    let behind_head = put_head(s, at, 0, count, to, out);
    put_tuples(s, at, sizes, bound, behind_head, out)
}

// The cost functions of the `r` records from `at` on.
fn put_functions(
    s: &[u8],
    at: usize,
    r: u32,
    sizes: &[u8],
    bound: u32,
    to: usize,
    out: &mut [u8],
) -> usize
    requires { AllWhole r sizes.now s.now at × All DomainSize sizes.now × (1 ≤ bound)
        × (to + length (functions_text sizes.now (written_from bound r sizes.now s.now at)) ≤ word_end) }
    ensures { Written to
        (functions_text sizes.now (written_from bound r sizes.now s.now at))
        out.old out.new result }
{
    let mut here = at;
    let mut next = to;
    for _ in 0..r {
        next = put_function(s, here, sizes, bound, next, out);
        here = problem::place_after(s, here, sizes);
    }
    next
}

// The largest domain size.
fn largest_of(sizes: &[u8]) -> u8
    ensures { result ≡ largest_of sizes.now }
{
    let mut largest: u8 = 0;
    for size in sizes {
        largest = largest.max(*size);
    }
    largest
}

// The first line: the name `P`, how many variables, the largest domain size, how many functions, the upper bound.
fn put_first_line(variables: u8, largest: u8, tables: u32, bound: u32, out: &mut [u8]) -> usize
    requires { length (first_line variables largest tables bound) ≤ word_end }
    ensures { Written 0 (first_line variables largest tables bound)
        out.old out.new result }
{
    let behind_name = text_lines::put_byte(b'P', 0, out);
    let behind_space = text_lines::put_byte(b' ', behind_name, out);
    let sizes = [variables, largest];
    let behind_sizes = text_lines::put_spaced(&sizes, behind_space, out);
    let behind_tables = text_lines::put_number(tables, b' ', behind_sizes, out);
    text_lines::put_number(bound, b'\n', behind_tables, out)
}

// The whole text of a problem that a text can hold, by its header and its domain sizes.
fn put_network(s: &[u8], head: model::Header, sizes: &[u8], out: &mut [u8]) -> usize
    requires { Opened s.now head sizes.now }
    ensures { Written 0 (network_text (problem_of s.now)) out.old out.new result }
{
    let largest = largest_of(sizes);
    let bound = head.ceilings[0] + 1;
    let behind_first = put_first_line(head.variables, largest, head.tables, bound, out);
    let last = sizes.len() - 1;
    let size = problem::wide(sizes[last]);
    let behind_sizes = text_lines::put_line(&sizes[..last], size, behind_first, out);
    let start = problem::tables_start(head);
    put_functions(s, start, head.tables, sizes, bound, behind_sizes, out)
}

// Whether no text can hold the problem: more than one objective, or a ceiling without an upper bound of four bytes.
fn is_unwritable(head: model::Header) -> bool
    ensures { result ≡ (ltb 1 head.objectives || ltb max_bound (upper_bound_for (get_or head.ceilings 0 0))) }
{
    if 1 < head.objectives {
        return true;
    }
    4294967294 < head.ceilings[0]
}

// A problem with one objective as text, over the start of a buffer. It is measured before anything is written.
#[tactic(auto, using(crate::proofs::TextAnswers::refused_answer))]
pub fn to_text(problem: &[u8], text: &mut [u8]) -> Result<u32, Refusal>
    ensures { ConvertSays (to_text_outcome problem.now text.old) text.new result }
{
    let q = problem::read_problem(problem)?;
    let head = q.head;
    if is_unwritable(head) {
        return Err(Reason::Dialect.at(0));
    }
    let n = head.variables as usize;
    let length = put_network(problem, head, &q.sizes[..n], &mut text[..0]);
    if text.len() < length {
        return Err(Reason::Output.at(0));
    }
    let written = put_network(problem, head, &q.sizes[..n], text);
    Ok(written as u32)
}
