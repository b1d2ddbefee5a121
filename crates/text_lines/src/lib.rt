// Lines of decimal numbers, written to a place of a buffer, or measured where it is too short.
#![tactic(auto)]

ghost use Rattle.std.specs.Prelude.{◌≡◌, [], ◌∷◌, ◌++◌, ◌+◌, ◌≤◌, length, take, drop};
ghost use Rattle.model.specs.Limits.{word_end};
ghost use Rattle.text_words.specs.Texts.{decimal, spaced, line};
ghost use Rattle.text_lines.specs.Written.{Written};

// How many decimal digits a number has.
fn digit_count(x: u32) -> usize
    ensures { result ≡ length (decimal x) }
{
    let mut count: usize = 1;
    let mut left = x / 10;
    while left > 0 {
        left = left / 10;
        count += 1;
    }
    count
}

// Writes the digits of a number from `at` to `end`, the last one first. (std's Display is no plainer: it does not
// measure a number for which there is no room.)
fn put_digits(x: u32, at: usize, end: usize, out: &mut [u8])
    requires { (end ≡ at + length (decimal x)) × (end ≤ length out.old) }
    ensures { out.new ≡ take at out.old ++ (decimal x ++ drop end out.old) }
{
    let mut left = x;
    for k in (at..end).rev() {
        out[k] = (48 + left % 10) as u8;
        left = left / 10;
    }
}

// A number in decimal digits, and the byte behind it.
pub fn put_number(x: u32, behind: u8, at: usize, out: &mut [u8]) -> usize
    requires { at + length (decimal x ++ (behind ∷ [])) ≤ word_end }
    ensures { Written at (decimal x ++ (behind ∷ [])) out.old out.new result }
{
    let end = at + digit_count(x);
    if out.len() <= end {
        return end + 1;
    }
    put_digits(x, at, end, out);
    out[end] = behind;
    end + 1
}

// A byte.
pub fn put_byte(b: u8, at: usize, out: &mut [u8]) -> usize
    requires { at + 1 ≤ word_end }
    ensures { Written at (b ∷ []) out.old out.new result }
{
    if out.len() <= at {
        return at + 1;
    }
    out[at] = b;
    at + 1
}

// Numbers with a space behind each.
pub fn put_spaced(numbers: &[u8], at: usize, out: &mut [u8]) -> usize
    requires { at + length (spaced numbers.now) ≤ word_end }
    ensures { Written at (spaced numbers.now) out.old out.new result }
{
    let mut next = at;
    for n in numbers {
        next = put_number(u32::from(*n), b' ', next, out);
    }
    next
}

// A line of numbers; the last one may be large.
pub fn put_line(numbers: &[u8], last: u32, at: usize, out: &mut [u8]) -> usize
    requires { at + length (line (numbers.now ++ (last ∷ []))) ≤ word_end }
    ensures { Written at (line (numbers.now ++ (last ∷ []))) out.old out.new result }
{
    let next = put_spaced(numbers, at, out);
    put_number(last, b'\n', next, out)
}
