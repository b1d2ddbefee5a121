// A store of solved problems in lent memory: which slot holds a form, loading its answer, and saving one.
#![tactic(auto)]

ghost use Rattle.std.specs.Prelude.{◌≡◌, ◌+◌, ◌*◌, ◌/◌, ◌≤◌, ◌<◌, min, length, take, drop, MatchOption};
ghost use Rattle.model.specs.Limits.{max_points};
ghost use Rattle.model.specs.Encoding.{four_bytes, word_bytes};
ghost use Rattle.model.specs.Reading.{word4, words_in};
ghost use Rattle.model.specs.Vectors.{same};
ghost use Rattle.model.specs.Calls.{over};
ghost use Rattle.form_canonical.specs.Places.{over_at};
ghost use Rattle.cache_answers.specs.Stores.{slot_size, max_slots, costs_at, choices_at, count_at, slots_in, slot_at};
ghost use Rattle.cache_answers.specs.Stores.{holds_form, find_form, next_slot, slot_after, stored};

// A slot's bytes, how many slots count, and where a slot has its parts.
const SLOT_SIZE: usize = 63000;

const MAX_SLOTS: usize = 32;

const COSTS_AT: usize = 60000;

const CHOICES_AT: usize = 61024;

const LENGTH_AT: usize = 62560;

const COUNT_AT: usize = 62564;

const NEXT_AT: usize = 62568;

// How many bytes are compared without a test between them.
const CHUNK: usize = 512;

// How many slots a store of so many bytes has.
pub fn slots_in(bytes: usize) -> usize
    ensures { result ≡ min (bytes / slot_size) max_slots }
{
    (bytes / SLOT_SIZE).min(MAX_SLOTS)
}

// Whether a slot starts with a form: by chunks without a way out in them, so that many bytes go at once.
fn starts_with(slot: &[u8], form: &[u8]) -> bool
    requires { length form.now ≤ length slot.now }
    ensures { result ≡ same (take (length form.now) slot.now) form.now }
{
    let count = form.len();
    let chunks = count / CHUNK;
    for k in 0..chunks {
        let i = k * CHUNK;
        let end = i + CHUNK;
        if !form_order::is_same(&slot[i..end], &form[i..end]) {
            return false;
        }
    }
    let i = chunks * CHUNK;
    form_order::is_same(&slot[i..count], &form[i..count])
}

// Whether a slot holds a form: its length word tells most others apart.
fn holds_form(slot: &[u8], form: &[u8]) -> bool
    requires { (slot_size ≤ length slot.now) × (length form.now ≤ costs_at) }
    ensures { result ≡ holds_form form.now slot.now }
{
    if problem::four_at(slot, LENGTH_AT) as usize != form.len() {
        return false;
    }
    starts_with(slot, form)
}

// The first slot that holds the form, if one does: the search ends behind the slots where none does.
pub fn find_form(store: &[u8], form: &[u8]) -> Option<usize>
    requires { length form.now ≤ costs_at }
    ensures { MatchOption result
        (find_form (slots_in store.now) 0 form.now store.now ≡ slots_in store.now)
        (λ k. (k ≡ find_form (slots_in store.now) 0 form.now store.now) × (k < slots_in store.now)) }
{
    let slots = slots_in(store.len());
    for k in 0..slots {
        let at = SLOT_SIZE * k;
        if holds_form(&store[at..], form) {
            return Some(k);
        }
    }
    None
}

// How many points the answer in slot `k` has.
pub fn count_in(store: &[u8], k: usize) -> usize
    requires { k < slots_in store.now }
    ensures { result ≡ min (word4 (drop count_at (slot_at store.now k))) max_points }
{
    let at = SLOT_SIZE * k;
    let count = problem::four_at(&store[at..], COUNT_AT) as usize;
    count.min(model::Point::MAX_COUNT)
}

// The first `count` costs of the answer in slot `k`, over the start of a buffer.
pub fn load_costs(store: &[u8], k: usize, count: usize, costs: &mut [u32])
    requires { (k < slots_in store.now) × (count ≤ 256) × (count ≤ length costs.old) }
    ensures { costs.new
        ≡ over (words_in count (drop costs_at (slot_at store.now k))) costs.old }
{
    let at = SLOT_SIZE * k + COSTS_AT;
    for i in 0..count {
        costs[i] = problem::four_at(store, at + 4 * i);
    }
}

// The first `count` choices of the answer in slot `k`, over the start of a buffer.
pub fn load_choices(store: &[u8], k: usize, count: usize, choices: &mut [u8])
    requires { (k < slots_in store.now) × (count ≤ 1536) × (count ≤ length choices.old) }
    ensures { choices.new
        ≡ over (take count (drop choices_at (slot_at store.now k))) choices.old }
{
    let at = SLOT_SIZE * k + CHOICES_AT;
    choices[..count].copy_from_slice(&store[at..at + count]);
}

// The slot that is written next.
fn next_slot(store: &[u8]) -> usize
    requires { slot_size ≤ length store.now }
    ensures { (result ≡ next_slot store.now) × (result < max_slots)
        × (slot_size * result + slot_size ≤ length store.now) }
{
    let k = problem::four_at(store, NEXT_AT) as usize;
    if k < slots_in(store.len()) { k } else { 0 }
}

// The slot behind slot `k`, round the slots.
fn slot_after(slots: usize, k: usize) -> usize
    requires { k < max_slots }
    ensures { (result ≡ slot_after slots k) × (result ≤ max_slots) }
{
    if k + 1 < slots { k + 1 } else { 0 }
}

// The four bytes of a number, at a place of a buffer.
fn put_four(x: u32, at: usize, out: &mut [u8])
    requires { at + 4 ≤ length out.old }
    ensures { out.new ≡ over_at at (four_bytes x) out.old }
{
    out[at..at + 4].copy_from_slice(&x.to_le_bytes());
}

// The four bytes of each cost, at a place of a buffer.
fn put_costs(costs: &[u32], at: usize, out: &mut [u8])
    requires { at + 4 * length costs.now ≤ length out.old }
    ensures { out.new ≡ over_at at (word_bytes costs.now) out.old }
{
    for (i, &cost) in costs.iter().enumerate() {
        put_four(cost, at + 4 * i, out);
    }
}

// Stores a form with its answer: in the slot that is due, which is the oldest.
pub fn save(store: &mut [u8], form: &[u8], points: usize, costs: &[u32], choices: &[u8])
    requires { (slot_size ≤ length store.old) × (length form.now ≤ costs_at) × (points ≤ max_points)
        × (length costs.now ≤ 256) × (length choices.now ≤ 1536) }
    ensures { store.new ≡ stored form.now
        (record { count = points; costs = costs.now; choices = choices.now })
        store.old }
{
    let k = next_slot(store);
    let after = slot_after(slots_in(store.len()), k);
    let at = SLOT_SIZE * k;
    store[at..at + form.len()].copy_from_slice(form);
    put_costs(costs, at + COSTS_AT, store);
    let behind = at + CHOICES_AT;
    store[behind..behind + choices.len()].copy_from_slice(choices);
    put_four(form.len() as u32, at + LENGTH_AT, store);
    put_four(points as u32, at + COUNT_AT, store);
    put_four(after as u32, NEXT_AT, store);
}
