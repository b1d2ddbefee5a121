// Tuples of a WCSP text: where a tuple's entry stands in its table, and whether one is given twice.
#![tactic(auto)]

ghost use Rattle.std.specs.Prelude.{◌≡◌, suc, ◌≤◌, length, take};
ghost use Rattle.model.specs.Basics.{All};
ghost use Rattle.model.specs.Problems.{DomainSize};
ghost use Rattle.text_words.specs.Reads.{words_at};
ghost use Rattle.text_networks.specs.Findings.{fine, runs};
ghost use Rattle.text_networks.specs.Networks.{tuple_finding, tuples_of, repeated_tuple};
ghost use Rattle.text_tuples.specs.Entries.{TupleAt, EntrySays};

// Where a tuple's entry stands in its table, and the place behind the tuple's values.
#[derive(Clone, Copy)]
pub struct Entry {
    pub index: usize,
    pub end: usize,
}

// Of the three sizes the first `arity` count: so the callers of other crates hold them.
pub fn tuple_index(s: &[u8], at: usize, arity: usize, sizes: [u8; 3]) -> Entry
    requires { TupleAt s.now at arity sizes }
    ensures { EntrySays s.now at arity sizes result }
{
    let mut index: usize = 0;
    let mut end = at;
    for i in 0..arity {
        let read = text_words::read_number(s, end);
        index = index * (sizes[i] as usize) + read.value as usize;
        end = read.end;
    }
    Entry { index, end }
}

// Whether two of the tuples have the same values; entries are marked as their tuples are met.
pub fn tuples_repeat(s: &[u8], at: usize, count: u64, arity: usize, sizes: [u8; 3]) -> bool
    requires { (at ≤ length s.now) × (arity ≤ 3) × All DomainSize (take arity sizes)
        × (runs count (tuple_finding (take arity sizes)) (suc arity) (words_at s.now at) ≡ fine)
        × (arity ≡ 0 → count ≡ 0) }
    ensures { result ≡ repeated_tuple (tuples_of count arity (words_at s.now at)) }
{
    let mut met = [false; 512];
    let mut next = at;
    for _k in 0..count {
        let entry = tuple_index(s, next, arity, sizes);
        let index = entry.index;
        if met[index] {
            return true;
        }
        met[index] = true;
        let cost = text_words::read_number(s, entry.end);
        next = cost.end;
    }
    false
}
