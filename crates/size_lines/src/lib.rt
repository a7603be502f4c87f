// Chunk lines that are digits alone, at the front of bytes: one or two digits by their word, and any number of them.
#![tactic(auto)]

ghost use Rattle.std.specs.Prelude.{◌≡◌, ◌+◌, ◌*◌, ◌/◌, ◌%◌, ◌<◌, ◌≤◌};
ghost use Rattle.size_lines.specs.helpers.Lines.{InDigits, PlainLine};
ghost use Rattle.size_lines.specs.helpers.Words.{LineOf, ShortOf};

use framing::LINE_LIMIT;

// A line of digits alone: the size that it gives, above zero, and its bytes with CR LF.
#[derive(Clone, Copy)]
pub struct SizeLine {
    pub size: usize,
    pub length: usize,
}

// What four bytes, as one number, begin with: a line of one or two digits and CR LF, or another.
#[derive(Clone, Copy)]
pub struct Short {
    pub word: u32,
    pub line: Option<SizeLine>,
}

// CR and LF as one number, CR the lower byte.
const CRLF: u32 = 0x0a0d;

// What these four bytes begin with.
pub fn read_word(word: u32) -> Short
    ensures { ShortOf result × (result.word ≡ word) }
{
    Short {
        word,
        line: short_line(word),
    }
}

// A chunk line of digits alone at the front of the bytes, with its CR LF, that gives a size above zero and at most `left`.
pub fn plain_line(bytes: &[u8], left: usize) -> Option<SizeLine>
    ensures { PlainLine bytes.now left result }
{
    let mut size = 0;
    for (at, b) in bytes.iter().enumerate() {
        let digit = octets::hex_value(*b) as usize;
        if digit > 15 {
            return ended_line(bytes, at, size, left);
        }
        if at == LINE_LIMIT || size > left / 16 || digit > left - size * 16 {
            return None;
        }
        size = size * 16 + digit;
    }
    None
}

// The short line that begins with these four bytes. No branch asks how many digits it has.
fn short_line(word: u32) -> Option<SizeLine>
    ensures { LineOf word result }
{
    let [first, byte, _, _] = word.to_le_bytes();
    let first = octets::hex_value(first) as usize;
    let second = octets::hex_value(byte) as usize;
    let two = chunked::has_second(byte);
    if first > 15 || second / 16 + two != 1 || line_end(word, two) != CRLF {
        return None;
    }
    let size = short_size(first, second, two);
    if size == 0 {
        return None;
    }
    let length = 3 + two;
    Some(SizeLine { size, length })
}

// The two bytes behind one digit, or two: `two` is 0 or 1, a number, since lengths and sizes are counted with it.
fn line_end(word: u32, two: usize) -> u32
    ensures { (two ≡ 0 → result ≡ word / 256 % 65536) × (two ≡ 1 → result ≡ word / 65536) }
{
    if two == 0 {
        word / 256 % 65536
    } else {
        word / 65536
    }
}

// The size by the first digit, or two.
fn short_size(first: usize, second: usize, two: usize) -> usize
    requires { (first < 64) × (second < 64) × (two ≤ 1) }
    ensures { (result < 2048) × (two ≡ 0 → result ≡ first) × (two ≡ 1 → result ≡ first * 16 + second) }
{
    (first << (4 * two)) + second * two
}

// Behind its digits.
fn ended_line(bytes: &[u8], at: usize, size: usize, left: usize) -> Option<SizeLine>
    requires { InDigits bytes.now left at size }
    ensures { PlainLine bytes.now left result }
{
    if size == 0 || bytes.len() - at < 2 || bytes[at] != b'\r' || bytes[at + 1] != b'\n' {
        return None;
    }
    let length = at + 2;
    Some(SizeLine { size, length })
}
