// The canonical form of a problem: its definitions and the theorems about them; what the call for it answers.
#![tactic(auto)]

ghost use Rattle.std.specs.Prelude.{◌≡◌, ◌<◌};
ghost use Rattle.model.specs.Limits.{word_end};
ghost use Rattle.model.specs.Reasons.{told, value_or};
ghost use Rattle.form_canonical.specs.Says.{no_form};

use model::Refusal;

// How many bytes the canonical form has, and its key.
#[derive(Clone, Copy)]
pub struct Canonical {
    pub count: u32,
    pub key: u64,
}

// The answer for C: the number is the result, the others go through references; zeros where it is refused.
pub fn tell(
    canonical: Result<Canonical, Refusal>,
    place: &mut u32,
    count: &mut u32,
    key: &mut u64,
) -> u8
    ensures number { result ≡ (told canonical).number }
    ensures place { (told canonical).place < word_end → place.new ≡ (told canonical).place }
    ensures count { count.new ≡ (value_or no_form canonical).count }
    ensures key { key.new ≡ (value_or no_form canonical).key }
{
    match canonical {
        Ok(form) => {
            *place = 0;
            *count = form.count;
            *key = form.key;
            0
        }
        Err(refusal) => {
            *count = 0;
            *key = 0;
            refusal.tell(place)
        }
    }
}
