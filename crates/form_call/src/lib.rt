// From the bytes of a problem to its canonical form and its key; or a refusal.
#![tactic(auto)]

ghost use Rattle.std.specs.Prelude.{◌≡◌, ◌+◌, ◌≤◌, length};
ghost use Rattle.model.specs.Calls.{over};
ghost use Rattle.form_canonical.specs.Canonical.{canonical_bytes, canonical_outcome};
ghost use Rattle.form_canonical.specs.Says.{CanonicalSays};
ghost use Rattle.form_call.specs.Opened.{Turnable, TurnedParts, form_records, Opened};
ghost use Rattle.form_canonical.specs.Places.{over_at};

use model::{Reason, Refusal};

// Turns the accepted records from `at` on, each at its own place of a buffer, and notes which part of it each one has.
fn turn_records(s: &[u8], at: usize, sizes: &[u8], turned: &mut [u8], parts: &mut [u32])
    requires { Turnable (length parts.old) sizes.now s.now at × (length s.now ≤ length turned.old) }
    ensures { TurnedParts (length parts.old) sizes.now s.now at
        turned.new parts.new }
{
    let mut here = at;
    for i in 0..parts.len() {
        let next = problem::place_after(s, here, sizes);
        form_turning::put_turned(s, here, sizes, turned);
        parts[i] = form_order::part_of(here, next);
        here = next;
    }
}

// The accepted records from `at` on in canonical form, at the same place of `form`. They are turned in a buffer beside
// it, and copied from there in order.
fn put_records(
    s: &[u8],
    at: usize,
    sizes: &[u8],
    turned: &mut [u8],
    parts: &mut [u32],
    form: &mut [u8],
)
    requires { Turnable (length parts.old) sizes.now s.now at × (length s.now ≤ length turned.old)
        × (at + length (form_records (length parts.old) sizes.now s.now at) ≤ length form.old) }
    ensures { form.new
        ≡ over_at at (form_records (length parts.old) sizes.now s.now at)
        form.old }
{
    turn_records(s, at, sizes, turned, parts);
    form_order::sort_parts(turned, parts);
    form_order::copy_parts(turned, parts, at, form);
}

// The canonical form of an accepted problem over the start of a buffer: its header and its domains as they are, then
// its records.
pub fn put_form(s: &[u8], head: model::Header, sizes: &[u8], form: &mut [u8])
    requires { Opened s.now head sizes.now × (length s.now ≤ length form.old) }
    ensures { form.new ≡ over (canonical_bytes s.now) form.old }
{
    let start = problem::tables_start(head);
    let r = head.tables as usize;
    let mut turned = [0u8; 60000];
    let mut parts = [0u32; 256];
    form_order::copy_bytes(s, 0, start, 0, form);
    put_records(s, start, sizes, &mut turned, &mut parts[..r], form);
}

// The canonical form of a problem, over the start of a buffer, and its key. Nothing is written before the verdict is
// known: the form is as long as the problem.
#[tactic(auto, using(crate::proofs::FormAnswers::refused_answer))]
pub fn canonical_form(problem: &[u8], form: &mut [u8]) -> Result<form_canonical::Canonical, Refusal>
    ensures { CanonicalSays (canonical_outcome problem.now form.old)
        form.new result }
{
    let q = problem::read_problem(problem)?;
    let count = problem.len();
    if form.len() < count {
        return Err(Reason::Output.at(0));
    }
    let head = q.head;
    let n = head.variables as usize;
    put_form(problem, head, &q.sizes[..n], form);
    let key = form_keys::key_of(&form[..count]);
    Ok(form_canonical::Canonical {
        count: count as u32,
        key,
    })
}
