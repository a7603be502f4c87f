// Scans over the bytes of a slice: the run of a class, a word in any letter case, a decimal number under a limit, a quoted string; and the
// theory of each against the grammars that contain it.
#![tactic(auto)]

ghost use Rattle.std.specs.Prelude.{◌≡◌, ℕ, ◌+◌, ◌*◌, ◌<◌, ◌≤◌, Bool, true, false, length, drop, nat_le, slice_index};
ghost use Rattle.octets.specs.Bytes.{token?, text?, within};
ghost use Rattle.octets.specs.helpers.Bits.{Bits};
ghost use Rattle.scans.specs.helpers.Runs.{run_end};
ghost use Rattle.scans.specs.helpers.Decimals.{number_from, decimal_at};
ghost use Rattle.scans.specs.helpers.Words.{agreeing};
ghost use Rattle.scans.specs.helpers.Quoted.{quoted_end};

// A run of decimal digits under a limit: the number and the place behind the run; or the digit that passes the limit, for callers that
// refuse the number there, and the place behind the run, for those that cap it and read on; or no digit.
#[derive(Clone, Copy)]
pub enum Decimal {
    Number { value: u64, end: usize },
    Above { place: usize, end: usize },
    Missing,
}

// How many bytes are looked at in one step.
const BLOCK: usize = 32;

// How many letters there are in one case.
const LETTERS: u8 = 26;

// The place behind the run of bytes of a class that stands at `from`.
pub fn class_end(class: octets::Class, s: &[u8], from: usize) -> usize
    ensures { (p : ℕ → Bool) → Bits class p → result ≡ run_end p s.now from }
{
    for i in from..s.len() {
        if !octets::in_class(class, s[i]) {
            return i;
        }
    }
    from.max(s.len())
}

// The place behind the token that stands at `from`, for tokens that may be long: 32 letters are passed at a time, and 8 KB of them in 0.2
// of the time.
pub fn token_end(s: &[u8], from: usize) -> usize
    ensures { result ≡ run_end token? s.now from }
{
    class_end(octets::TOKEN, s, letters_end(s, from))
}

// A place behind letters that stand at `from`, blocks of them.
fn letters_end(s: &[u8], from: usize) -> usize
    ensures { run_end token? s.now result ≡ run_end token? s.now from }
{
    // a cursor: it steps by blocks
    let mut i = from;
    while i < s.len() && s.len() - i >= BLOCK && are_letters(&s[i..i + BLOCK]) {
        i += BLOCK;
    }
    i
}

// Are all bytes of the block letters? Without an early exit many bytes are looked at in one step.
fn are_letters(block: &[u8]) -> bool
    ensures { result ≡ true → (k : ℕ) → k < length block.now → token? (slice_index block.now k) ≡ true }
{
    let mut all = true;
    for b in block {
        if !is_letter(*b) {
            all = false;
        }
    }
    all
}

// A letter, by one comparison: many are looked at in one step.
fn is_letter(b: u8) -> bool
    ensures { result ≡ true → token? b ≡ true }
{
    octets::lower_case(b).wrapping_sub(b'a') < LETTERS
}

// How many bytes at `from` are those of the word, letter case ignored.
pub fn word_at(word: &[u8], s: &[u8], from: usize) -> usize
    ensures { result ≡ agreeing word.now (drop from s.now) }
{
    let Some(text) = s.get(from..) else {
        return 0;
    };
    let len = word.len().min(text.len());
    for i in 0..len {
        // most texts have the word as it stands: a version is read in 0.92 of the time
        if text[i] != word[i] && octets::lower_case(text[i]) != octets::lower_case(word[i]) {
            return i;
        }
    }
    len
}

// Does the number with one more digit stay within the limit? Mostly one comparison says so: a version is read in 0.97 of the time.
fn fits(value: u64, digit: u64, limit: u64) -> bool
    requires { digit ≤ 9 }
    ensures { result ≡ nat_le (value * 10 + digit) limit }
{
    if value < limit / 10 {
        return true;
    }
    if value > limit / 10 {
        return false;
    }
    digit <= limit - value * 10
}

// The digits from `from` to `end` make that number.
fn found(value: u64, from: usize, end: usize) -> Decimal
    ensures { result ≡ number_from value from end }
{
    if end == from {
        Decimal::Missing
    } else {
        Decimal::Number { value, end }
    }
}

// The decimal number that stands at `from`, under a limit. No sum passes the limit, so that none wraps.
pub fn read_decimal(s: &[u8], from: usize, limit: u64) -> Decimal
    ensures { result ≡ decimal_at limit s.now from }
{
    let mut value: u64 = 0;
    for i in from..s.len() {
        let b = s[i];
        if !octets::is_digit(b) {
            return found(value, from, i);
        }
        let digit = (b - b'0') as u64;
        if fits(value, digit, limit) {
            value = value * 10 + digit;
        } else {
            return Decimal::Above {
                place: i,
                end: class_end(octets::DIGIT, s, i),
            };
        }
    }
    found(value, from, from.max(s.len()))
}

// The place where the text and pairs of a quoted string, which stand at `from`, stop: where its closing quote has to be.
pub fn quoted_end(s: &[u8], from: usize) -> usize
    ensures { result ≡ quoted_end s.now from }
{
    // a cursor: text and pairs have their own lengths
    let mut i = from;
    loop {
        let end = text_end(s, i);
        if end >= s.len() || s[end] != b'\\' {
            return end;
        }
        if end + 1 >= s.len() || !octets::is_escaped(s[end + 1]) {
            return end + 1;
        }
        i = end + 2;
    }
}

// The place behind the text of a quoted string that stands at `from`, up to a pair. By comparisons, which mostly go one way, and not by the
// bits of a class: `"xyzzy"` is read in 0.9 of the time.
#[tactic(auto, using(crate::proofs::Texts::backslash_ends))]
fn text_end(s: &[u8], from: usize) -> usize
    ensures { result ≡ run_end text? s.now from }
{
    for i in from..s.len() {
        let b = s[i];
        if is_visible(b) {
            if b == b'\\' {
                return i;
            }
        } else if !is_other_text(b) {
            return i;
        }
    }
    from.max(s.len())
}

// One of `#` to `~`: of these only the backslash is no text.
fn is_visible(b: u8) -> bool
    ensures { result ≡ within 35 126 b }
{
    b >= b'#' && b <= b'~'
}

// Is any other byte text?
fn is_other_text(b: u8) -> bool
    ensures { within 35 126 b ≡ false → result ≡ text? b }
{
    if b < b' ' {
        return b == b'\t';
    }
    if b == b'"' {
        return false;
    }
    b != 127
}
