// From WCSP text to the bytes of its problem; or a refusal.
#![tactic(auto)]

ghost use Rattle.std.specs.Prelude.{◌≡◌, [], ◌∷◌, ◌+◌, ◌≤◌, ◌<◌, length, replicate};
ghost use Rattle.model.specs.Basics.{All};
ghost use Rattle.model.specs.Limits.{max_variables, max_tables, max_arity, max_bytes, short_end, word_end};
ghost use Rattle.model.specs.Problems.{DomainSize};
ghost use Rattle.model.specs.Encoding.{two_bytes, four_bytes, word_bytes, domain_bytes, table_bytes, tables_bytes};
ghost use Rattle.model.specs.Encoding.{encode};
ghost use Rattle.model.specs.Calls.{over};
ghost use Rattle.text_words.specs.Texts.{words_of};
ghost use Rattle.text_words.specs.Reads.{words_at};
ghost use Rattle.text_lines.specs.Written.{Written};
ghost use Rattle.text_networks.specs.Findings.{fine, values_in};
ghost use Rattle.text_networks.specs.Networks.{function_table, function_tables, network_finding, network_problem};
ghost use Rattle.text_networks.specs.Conversions.{from_text_outcome};
ghost use Rattle.text_networks.specs.Says.{ConvertSays};
ghost use Rattle.text_reading.specs.Heads.{HeadSays, head_form, DomainsSay, domain_list};
ghost use Rattle.text_reading.specs.Functions.{ScopeAt, ScopeSays, FunctionAt, FunctionSays, table_head};
ghost use Rattle.text_reading.specs.Functions.{TuplePlace, TuplePut, TuplesPlace, TuplesPut, FunctionPut};
ghost use Rattle.text_reading.specs.Functions.{FunctionsAt};

use model::{Reason, Refusal};

// The numbers of the first line, with the ceiling for its upper bound, and the place behind them.
#[derive(Clone, Copy)]
struct Head {
    variables: usize,
    functions: u64,
    ceiling: u32,
    end: usize,
}

// The domain sizes, and the place behind them.
#[derive(Clone, Copy)]
struct Domains {
    count: usize,
    sizes: [u8; 24],
    end: usize,
}

// A scope with the domain sizes of its variables, how many entries its table has, and the place behind it.
#[derive(Clone, Copy)]
struct Scope {
    arity: usize,
    variables: [u8; 3],
    sizes: [u8; 3],
    size: usize,
    end: usize,
}

// A cost function up to its tuples, which start at `end`.
#[derive(Clone, Copy)]
struct Function {
    scope: Scope,
    default: u32,
    count: u64,
    end: usize,
}

// Where reading and writing go on.
#[derive(Clone, Copy)]
struct Next {
    at: usize,
    to: usize,
}

// Bytes at a place of a buffer; nothing where they don't all fit.
fn put_bytes(bytes: &[u8], at: usize, out: &mut [u8]) -> usize
    requires { at + length bytes.now ≤ word_end }
    ensures { Written at bytes.now out.old out.new result }
{
    let next = at + bytes.len();
    if out.len() < next {
        return next;
    }
    out[at..next].copy_from_slice(bytes);
    next
}

fn put_two(x: u32, at: usize, out: &mut [u8]) -> usize
    requires { (x < short_end) × (at + 2 ≤ word_end) }
    ensures { Written at (two_bytes x) out.old out.new result }
{
    put_bytes(&(x as u16).to_le_bytes(), at, out)
}

fn put_four(x: u32, at: usize, out: &mut [u8]) -> usize
    requires { at + 4 ≤ word_end }
    ensures { Written at (four_bytes x) out.old out.new result }
{
    put_bytes(&x.to_le_bytes(), at, out)
}

// The first line: a name, how many variables, the largest domain size, how many functions, the upper bound.
fn read_head(s: &[u8]) -> Head
    requires { network_finding (words_of s.now) ≡ fine }
    ensures { HeadSays s.now result }
{
    let name = text_words::next_word(s, 0);
    let variables = text_words::read_number(s, name.end);
    let largest = text_words::read_number(s, variables.end);
    let functions = text_words::read_number(s, largest.end);
    let bound = text_words::read_number(s, functions.end);
    Head {
        variables: variables.value as usize,
        functions: functions.value,
        ceiling: (bound.value - 1) as u32,
        end: bound.end,
    }
}

fn put_head(h: Head, out: &mut [u8]) -> usize
    requires { (h.variables ≤ max_variables) × (h.functions ≤ max_tables) }
    ensures { Written 0 (head_form h) out.old out.new result }
{
    let counts = put_bytes(&[b'H', b'D', h.variables as u8, 1], 0, out);
    let ceiling = put_two(h.functions as u32, counts, out);
    put_four(h.ceiling, ceiling, out)
}

fn read_domains(s: &[u8], at: usize, count: usize) -> Domains
    requires { (at ≤ length s.now) × (count ≤ max_variables)
        × All DomainSize (values_in count (words_at s.now at)) }
    ensures { DomainsSay s.now at count result }
{
    let mut sizes = [0u8; 24];
    let mut end = at;
    for i in 0..count {
        let size = text_words::read_number(s, end);
        sizes[i] = size.value as u8;
        end = size.end;
    }
    Domains { count, sizes, end }
}

fn put_domains(d: Domains, at: usize, out: &mut [u8]) -> usize
    requires { (d.count ≤ max_variables) × (at + length (domain_bytes (domain_list d)) ≤ word_end) }
    ensures { Written at (domain_bytes (domain_list d)) out.old out.new result }
{
    let mut next = at;
    for size in &d.sizes[..d.count] {
        next = put_bytes(&[b'D', b'O', *size], next, out);
    }
    next
}

fn read_scope(s: &[u8], at: usize, arity: usize, d: Domains) -> Scope
    requires { ScopeAt s.now at arity d }
    ensures { ScopeSays s.now at arity (domain_list d) result }
{
    let mut variables = [0u8; 3];
    let mut sizes = [0u8; 3];
    let mut size: usize = 1;
    let mut end = at;
    for i in 0..arity {
        let read = text_words::read_number(s, end);
        let variable = read.value as usize;
        let domain = d.sizes[variable];
        variables[i] = read.value as u8;
        sizes[i] = domain;
        size = size * (domain as usize);
        end = read.end;
    }
    Scope {
        arity,
        variables,
        sizes,
        size,
        end,
    }
}

fn read_function(s: &[u8], at: usize, d: Domains) -> Function
    requires { FunctionAt s.now at d }
    ensures { FunctionSays s.now at (domain_list d) result }
{
    let arity = text_words::read_number(s, at);
    let scope = read_scope(s, arity.end, arity.value as usize, d);
    let default = text_words::read_number(s, scope.end);
    let count = text_words::read_number(s, default.end);
    Function {
        scope,
        default: default.value as u32,
        count: count.value,
        end: count.end,
    }
}

// A cost record up to its costs.
fn put_table_head(scope: Scope, at: usize, out: &mut [u8]) -> usize
    requires { (scope.arity ≤ max_arity) × (at + 4 + scope.arity ≤ word_end) }
    ensures { Written at (table_head scope) out.old out.new result }
{
    let counts = put_bytes(&[b'C', b'F', 0, scope.arity as u8], at, out);
    put_bytes(&scope.variables[..scope.arity], counts, out)
}

// A table of `size` entries that are the same.
fn fill_costs(cost: u32, size: usize, at: usize, out: &mut [u8]) -> usize
    requires { at + length (word_bytes (replicate size cost)) ≤ word_end }
    ensures { Written at (word_bytes (replicate size cost)) out.old out.new result }
{
    let mut next = at;
    for _ in 0..size {
        next = put_four(cost, next, out);
    }
    next
}

// The cost of the tuple at `at` over its entry in the table at `to`.
fn put_tuple(s: &[u8], at: usize, scope: Scope, to: usize, out: &mut [u8]) -> usize
    requires { TuplePlace s.now at scope to }
    ensures { TuplePut s.now at scope to out.old out.new result }
{
    let entry = text_tuples::tuple_index(s, at, scope.arity, scope.sizes);
    let cost = text_words::read_number(s, entry.end);
    put_four(cost.value as u32, to + 4 * entry.index, out);
    cost.end
}

fn put_tuples(s: &[u8], f: Function, to: usize, out: &mut [u8]) -> usize
    requires { TuplesPlace s.now f to }
    ensures { TuplesPut s.now f to out.old out.new result }
{
    let mut next = f.end;
    for _ in 0..f.count {
        next = put_tuple(s, next, f.scope, to, out);
    }
    next
}

// The table of the function at `at`: the default everywhere, and then the costs of the tuples.
fn put_function(s: &[u8], at: usize, d: Domains, to: usize, out: &mut [u8]) -> Next
    requires { FunctionAt s.now at d × (to + length (table_bytes (function_table (domain_list d) (words_at s.now at)))
        ≤ word_end) }
    ensures { FunctionPut s.now at (domain_list d) to out.old out.new result }
{
    let f = read_function(s, at, d);
    let costs = put_table_head(f.scope, to, out);
    let behind = fill_costs(f.default, f.scope.size, costs, out);
    let end = put_tuples(s, f, costs, out);
    Next {
        at: end,
        to: behind,
    }
}

fn put_functions(s: &[u8], at: usize, count: u64, d: Domains, to: usize, out: &mut [u8]) -> usize
    requires { FunctionsAt s.now at count d to }
    ensures { Written to (tables_bytes (function_tables count (domain_list d) (words_at s.now at)))
        out.old out.new result }
{
    let mut next = Next { at, to };
    for _ in 0..count {
        next = put_function(s, next.at, d, next.to, out);
    }
    next.to
}

// The records of a text in which nothing is refused.
fn put_records(s: &[u8], out: &mut [u8])
    requires { (network_finding (words_of s.now) ≡ fine)
        × (length (encode (network_problem (words_of s.now))) ≤ length out.old)
        × (length (encode (network_problem (words_of s.now))) ≤ max_bytes) }
    ensures { out.new ≡ over (encode (network_problem (words_of s.now))) out.old }
{
    let head = read_head(s);
    let domains = read_domains(s, head.end, head.variables);
    let sizes = put_head(head, out);
    let tables = put_domains(domains, sizes, out);
    put_functions(s, domains.end, head.functions, domains, tables, out);
}

// The records of a text, over the start of a buffer. All of the text is checked before anything is written.
pub fn from_text(text: &[u8], problem: &mut [u8]) -> Result<u32, Refusal>
    ensures { ConvertSays (from_text_outcome text.now problem.old)
        problem.new result }
{
    let bytes = match text_checking::check_network(text) {
        Ok(bytes) => bytes,
        Err(reason) => return Err(reason.at(0)),
    };
    if 60000 < bytes {
        return Err(Reason::Dialect.at(0));
    }
    if problem.len() < bytes {
        return Err(Reason::Output.at(0));
    }
    put_records(text, problem);
    Ok(bytes as u32)
}
