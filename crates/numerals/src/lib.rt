// Numbers as text: decimal and hexadecimal, without leading zeros, in capitals.
#![tactic(auto)]

ghost use Rattle.std.specs.Prelude.{◌≡◌, ◌+◌, ◌<◌, ◌≤◌, length};
ghost use Rattle.numerals.specs.Numeral.{glyph as glyphOf, digits, numeral, radix, put as put_front};

// The base that digits are counted in.
#[derive(Clone, Copy)]
pub enum Base {
    Decimal = 10,
    Hex = 16,
}

// How many digits has `n`?
pub fn width(n: u64, base: Base) -> usize
    ensures { result ≡ length (numeral (radix base) n) }
{
    digit_count(n, base as u64)
}

// Puts the digits of `n` at the front of `out` if they fit, keeps the rest, and gives their count.
pub fn put(n: u64, base: Base, out: &mut [u8]) -> usize
    ensures counts { result ≡ length (numeral (radix base) n) }
    ensures writes { out.new ≡ put_front (numeral (radix base) n) out.old }
{
    put_numeral(n, base as u64, out)
}

fn put_numeral(n: u64, radix: u64, out: &mut [u8]) -> usize
    requires { (2 ≤ radix) × (radix ≤ 16) }
    ensures counts { result ≡ length (numeral radix n) }
    ensures writes { out.new ≡ put_front (numeral radix n) out.old }
{
    let count = digit_count(n, radix);
    if count <= out.len() {
        put_digits(n, radix, &mut out[..count]);
    }
    count
}

fn digit_count(n: u64, radix: u64) -> usize
    requires { 2 ≤ radix }
    ensures { result ≡ length (numeral radix n) }
{
    let mut count = 1;
    let mut rest = n;
    while rest >= radix {
        rest /= radix;
        count += 1;
    }
    count
}

// Fills `out` with the last digits of `n`.
fn put_digits(n: u64, radix: u64, out: &mut [u8])
    requires { (0 < radix) × (radix ≤ 16) }
    ensures { out.new ≡ digits radix (length out.old) n }
{
    let mut rest = n;
    for i in (0..out.len()).rev() {
        out[i] = glyph(rest % radix);
        rest /= radix;
    }
}

fn glyph(d: u64) -> u8
    requires { d < 16 }
    ensures { result ≡ glyphOf d }
{
    if d < 10 {
        b'0' + d as u8
    } else {
        b'A' + (d - 10) as u8
    }
}
