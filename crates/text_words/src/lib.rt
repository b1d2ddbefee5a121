// Words and decimal numbers of a text, read from a place on.
#![tactic(auto)]

ghost use Rattle.std.specs.Prelude.{◌≡◌, true, ◌+◌, ◌-◌, ◌*◌, ◌≤◌, min, ltb, length, drop};
ghost use Rattle.std.specs.List.{prefix_len};
ghost use Rattle.text_words.specs.Texts.{is_space, is_digit, all_digits, value_from};
ghost use Rattle.text_words.specs.Reads.{part, is_visible, is_zero, is_break, cap_end, sign_width};
ghost use Rattle.text_words.specs.Reads.{Skipped, WordEnds, WordSays};
ghost use Rattle.text_words.specs.Reads.{RunSays, numeral, DigitsAt, no_digits, NumberSays, ZerosSkipped};

// Values are told up to this one; a value below a tenth of it takes one more digit.
const CAP: u64 = 18446744073709551610;

const ROOM: u64 = 1844674407370955161;

// A word from `start` to `end`; empty where there is none.
#[derive(Clone, Copy)]
pub struct Word {
    pub start: usize,
    pub end: usize,
}

// Digits that end at `end`, and their value up to the cap.
#[derive(Clone, Copy)]
pub struct Digits {
    pub value: u64,
    pub end: usize,
}

// What a word is, as a number.
#[derive(Clone, Copy, PartialEq, Eq)]
pub enum Kind {
    Natural,
    Negative,
    Other,
}

// A word that ends at `end`; where it is a natural number, its digits start at `from`.
#[derive(Clone, Copy)]
pub struct Number {
    pub kind: Kind,
    pub value: u64,
    pub from: usize,
    pub end: usize,
}

pub fn is_space(b: u8) -> bool
    ensures { result ≡ is_space b }
{
    // Most bytes of a text are above all of these, and a long word may have lower ones. Std's test has no vertical tab.
    9 <= b && matches!(b, 9..=13 | b' ')
}

pub fn is_digit(b: u8) -> bool
    ensures { result ≡ is_digit b }
{
    b.is_ascii_digit()
}

// How many bytes of white space come first.
fn spaces(s: &[u8]) -> usize
    ensures { (result ≡ prefix_len is_space s.now) × (result ≤ length s.now) }
{
    s.iter().take_while(|b| is_space(**b)).count()
}

// How many bytes come before the first white space, or the end.
fn solids(s: &[u8]) -> usize
    ensures { (result ≡ prefix_len is_visible s.now) × (result ≤ length s.now) }
{
    s.iter().take_while(|b| !is_space(**b)).count()
}

// How many zeros come first.
fn zeros(s: &[u8]) -> usize
    ensures { (result ≡ prefix_len is_zero s.now) × (result ≤ length s.now) }
{
    s.iter().take_while(|b| **b == b'0').count()
}

// The first place from `at` on that has no white space.
pub fn skip_space(s: &[u8], at: usize) -> usize
    requires { at ≤ length s.now }
    ensures { Skipped s.now at result }
{
    at + spaces(&s[at..])
}

// The first place from `at` on that has white space, or the end.
pub fn word_end(s: &[u8], at: usize) -> usize
    requires { at ≤ length s.now }
    ensures { WordEnds s.now at result }
{
    at + solids(&s[at..])
}

// Whether a word that is read up to `at` ends there.
pub fn ends_word(s: &[u8], at: usize) -> bool
    requires { at ≤ length s.now }
    ensures { result ≡ is_break (drop at s.now) }
{
    if at < s.len() {
        return is_space(s[at]);
    }
    true
}

pub fn next_word(s: &[u8], at: usize) -> Word
    requires { at ≤ length s.now }
    ensures { WordSays s.now at result }
{
    let start = skip_space(s, at);
    let end = word_end(s, start);
    Word { start, end }
}

// A value with one more digit behind it, up to the cap.
fn with_digit(value: u64, b: u8) -> u64
    requires { is_digit b ≡ true }
    ensures { result ≡ min (10 * value + (b - 48)) cap_end }
{
    if value < ROOM {
        let digit = b as u64 - 48;
        return 10 * value + digit;
    }
    CAP
}

// The longest run of digits from `at` on.
pub fn read_digits(s: &[u8], at: usize) -> Digits
    requires { at ≤ length s.now }
    ensures { RunSays s.now at result }
{
    let mut value: u64 = 0;
    for i in at..s.len() {
        let b = s[i];
        if !is_digit(b) {
            return Digits { value, end: i };
        }
        value = with_digit(value, b);
    }
    Digits {
        value,
        end: s.len(),
    }
}

// The place behind the sign at `at`, or `at` where there is none.
fn behind_sign(s: &[u8], at: usize) -> usize
    requires { at ≤ length s.now }
    ensures { result ≡ at + sign_width (drop at s.now) }
{
    if at == s.len() {
        return at;
    }
    let b = s[at];
    if b == b'-' {
        return at + 1;
    }
    if b == b'+' {
        return at + 1;
    }
    at
}

// A word up to `end` that is no number.
fn no_digits(kind: Kind, end: usize) -> Number
    ensures { result ≡ no_digits kind end }
{
    Number {
        kind,
        value: 0,
        from: end,
        end,
    }
}

// The next word as a number.
pub fn read_number(s: &[u8], at: usize) -> Number
    requires { at ≤ length s.now }
    ensures { NumberSays s.now at result }
{
    let start = skip_space(s, at);
    let from = behind_sign(s, start);
    let run = read_digits(s, from);
    let value = run.value;
    let end = run.end;
    if end == from {
        return no_digits(Kind::Other, word_end(s, end));
    }
    if !ends_word(s, end) {
        return no_digits(Kind::Other, word_end(s, end));
    }
    if s[start] == b'-' {
        if value != 0 {
            return no_digits(Kind::Negative, end);
        }
    }
    Number {
        kind: Kind::Natural,
        value,
        from,
        end,
    }
}

// The first place from `from` on that is no zero, or `end`.
pub fn skip_zeros(s: &[u8], from: usize, end: usize) -> usize
    requires { (from ≤ end) × (end ≤ length s.now) × (all_digits (part s.now from end) ≡ true) }
    ensures { ZerosSkipped s.now from end result }
{
    from + zeros(&s[from..end])
}

// Whether the number of `n` digits at `a` is less than that of as many at `b`.
fn front_less(s: &[u8], a: usize, b: usize, n: usize) -> bool
    requires { (a + n ≤ length s.now) × (b + n ≤ length s.now)
        × (all_digits (part s.now a (a + n)) ≡ true) × (all_digits (part s.now b (b + n)) ≡ true) }
    ensures { result ≡ ltb (value_from 0 (part s.now a (a + n)))
        (value_from 0 (part s.now b (b + n))) }
{
    for i in 0..n {
        let x = s[a + i];
        let y = s[b + i];
        if x != y {
            return x < y;
        }
    }
    false
}

// Whether the number `a` is less than `b`, exact for numbers of any length.
pub fn is_less(s: &[u8], a: Number, b: Number) -> bool
    requires { DigitsAt s.now a × DigitsAt s.now b }
    ensures { result ≡ ltb (value_from 0 (numeral s.now a)) (value_from 0 (numeral s.now b)) }
{
    let x = a.value;
    let y = b.value;
    if x < CAP {
        return x < y;
    }
    if y < CAP {
        return false;
    }
    let a_from = a.from;
    let a_end = a.end;
    let a_start = skip_zeros(s, a_from, a_end);
    let b_from = b.from;
    let b_end = b.end;
    let b_start = skip_zeros(s, b_from, b_end);
    let a_width = a_end - a_start;
    let b_width = b_end - b_start;
    if a_width != b_width {
        return a_width < b_width;
    }
    front_less(s, a_start, b_start, a_width)
}
