// A store of solved problems, what the cached call answers, and runs of calls: definitions and theorems.
#![tactic(auto)]

ghost use Rattle.std.specs.Prelude.{◌≡◌, ◌<◌};
ghost use Rattle.model.specs.Basics.{when};
ghost use Rattle.model.specs.Limits.{word_end};
ghost use Rattle.model.specs.Reasons.{told, value_or};

use model::Refusal;

// The count of points, or what is refused; and whether the store held the answer.
#[derive(Clone, Copy)]
pub struct Cached {
    pub answer: Result<u32, Refusal>,
    pub hit: bool,
}

// The answer for C: the number is the result, the others go through references.
pub fn tell(cached: Cached, place: &mut u32, count: &mut u32, hit: &mut u8) -> u8
    ensures number { result ≡ (told cached.answer).number }
    ensures place { (told cached.answer).place < word_end → place.new ≡ (told cached.answer).place }
    ensures count { count.new ≡ value_or 0 cached.answer }
    ensures hit { hit.new ≡ when cached.hit 1 }
{
    *hit = u8::from(cached.hit);
    model::tell_count(cached.answer, place, count)
}
