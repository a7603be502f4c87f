// Lines of hexadecimal, for the programs: a line gathered from pieces of an input, and its digits as bytes.
#![tactic(auto)]

ghost use Rattle.std.specs.Prelude.{◌≡◌, true, ◌+◌, ◌*◌, length};
ghost use Rattle.octets.specs.Bytes.{hex?, hex_value};
ghost use Rattle.numerals.specs.Numeral.{every};
ghost use Rattle.lines.specs.Reading.{line_end, gathered_line, gathering, spelled, hex_answer, hex_output};
ghost use Rattle.lines.specs.helpers.Ends.{inner?, NoneBefore};
ghost use Rattle.lines.specs.helpers.Pairs.{pairs};

// The most digits that a line may have.
pub const DIGIT_LIMIT: usize = 32768;

// What a piece of the input adds to a line: how many of its bytes belong to the line, the LF included; how many bytes of the line are
// held; and whether the line ended.
#[derive(Clone, Copy)]
pub struct Gathered {
    pub taken: usize,
    pub held: usize,
    pub ended: bool,
}

// The place of the first LF, or the length.
#[tactic(auto, using(crate::proofs::Ends::ends_here, crate::proofs::Ends::ends_last))]
fn line_end(s: &[u8]) -> usize
    ensures { result ≡ line_end s.now }
{
    let start = pass_blocks(s);
    for i in start..s.len() {
        if s[i] == b'\n' {
            return i;
        }
    }
    s.len()
}

// A quick path: passes blocks of 64 bytes that have no LF, and stops at the first that has one. On lines of 16,384 digits `bench` takes
// 1.6 times as long without.
fn pass_blocks(s: &[u8]) -> usize
    ensures { NoneBefore s.now result }
{
    let blocks = s.len() / 64;
    for block in 0..blocks {
        let at = 64 * block;
        if !is_inner(&s[at..at + 64]) {
            return at;
        }
    }
    64 * blocks
}

// Is no byte LF? All are compared, even behind one, so that 16 are compared at a time.
fn is_inner(part: &[u8]) -> bool
    ensures { result ≡ every inner? part.now }
{
    let mut inner = true;
    for b in part {
        if *b == b'\n' {
            inner = false;
        }
    }
    inner
}

// Adds the bytes of a piece, up to its LF, to the `held` bytes at the front of `line`. Those that do not fit are left out: a line that
// is longer than `line` fills it.
pub fn gather(piece: &[u8], line: &mut [u8], held: usize) -> Gathered
    ensures answers { result ≡ gathering line.old held piece.now }
    ensures writes { line.new ≡ gathered_line line.old held piece.now }
{
    let end = line_end(piece);
    let start = held.min(line.len());
    let count = end.min(line.len() - start);
    let held = text::put_bytes(&piece[..count], line, start);
    let ended = end < piece.len();
    let taken = if ended { end + 1 } else { end };
    Gathered { taken, held, ended }
}

// Puts the bytes that a line spells at the front of `out`, keeps the rest, and gives their count. A bad line leaves `out` as it was.
pub fn from_hex(line: &[u8], out: &mut [u8]) -> Option<usize>
    ensures answers { result ≡ hex_answer (spelled line.now (length out.old)) }
    ensures writes { out.new ≡ hex_output (spelled line.now (length out.old)) out.old }
{
    if line.len() > DIGIT_LIMIT || line.len() % 2 != 0 || !all_hex(line) {
        return None;
    }
    let count = line.len() / 2;
    if count > out.len() {
        return None;
    }
    put_pairs(line, &mut out[..count]);
    Some(count)
}

// Is every byte a digit? By the largest value of all: no byte stops it, so that 16 are read at a time. `bench` takes 4.3 times as long if
// the first bad one does.
fn all_hex(line: &[u8]) -> bool
    ensures { result ≡ every hex? line.now }
{
    let mut most = 0;
    for b in line {
        most = octets::hex_value(*b).max(most);
    }
    most < 16
}

// Fills `out` with the bytes of two digits each.
fn put_pairs(line: &[u8], out: &mut [u8])
    requires { (length line.now ≡ 2 * length out.old) × (every hex? line.now ≡ true) }
    ensures { out.new ≡ pairs line.now }
{
    for i in 0..out.len() {
        out[i] = pair(line[2 * i], line[2 * i + 1]);
    }
}

// The byte of two digits, both values in one word: the low four bits, and 9 more for a letter, which has bit 6. Those bits are turned over
// first, and what they give is taken from 24: then the compiler loads words. `bench` takes 1.3 times as long if it loads bytes, and 2 times
// with `hex_value` here.
fn pair(first: u8, second: u8) -> u8
    requires { (hex? first ≡ true) × (hex? second ≡ true) }
    ensures { result ≡ hex_value first * 16 + hex_value second }
{
    let both = (first as u16 + (second as u16) * 256) ^ 0x4f4f;
    let values = 0x1818 - ((both & 0x0f0f) + ((both / 64) & 0x0101) * 9);
    ((values * 16 + values / 256) % 256) as u8
}
