// Paths and queries, resolved: each escape that is not needed is its character. RFC 2616 3.2.3.
#![tactic(auto)]

ghost use Rattle.std.specs.Prelude.{◌≡◌, ◌≤◌, Some, None, if◌then◌else◌, leb, length};
ghost use Rattle.std.specs.Iterator.{YieldsFirst, item_count};
ghost use Rattle.octets.specs.Same.{same?};
ghost use Rattle.numerals.specs.Numeral.{put};
ghost use Rattle.text.specs.Placing.{placed, behind};
ghost use Rattle.escapes.specs.Resolved.{escaped_byte, unneeded?, resolved};
ghost use Rattle.escapes.specs.helpers.Units.{percent?};

use octets::Class;

// The bytes whose escapes are not needed.
const UNRESERVED: Class = [0x3ff678200000000, 0x47fffffe87fffffe, 0, 0];

// The bytes of a resolved text, one by one, given what is left of the text.
#[derive(Drop)]
struct ResolvedBytes<'a>(&'a [u8]);

impl<'a> Iterator for ResolvedBytes<'a> {
    type Item = u8;

    ghost next_gives = { YieldsFirst (λ s. resolved s.0.now) };

    ghost remaining = { item_count (λ s. resolved s.0.now) };

    fn next(&mut self) -> Option<u8> {
        if let [b'%', x, y, rest @ ..] = self.0
            && let Some(byte) = unneeded(*x, *y)
        {
            self.0 = rest;
            return Some(byte);
        }
        let (first, rest) = self.0.split_first()?;
        self.0 = rest;
        Some(*first)
    }
}

// The byte that the hex digits of an escape name, where the escape is not needed.
fn unneeded(x: u8, y: u8) -> Option<u8>
    ensures { result ≡ (if unneeded? x y then Some (escaped_byte x y) else None) }
{
    let high = octets::hex_value(x);
    let low = octets::hex_value(y);
    if high > 15 || low > 15 {
        return None;
    }
    let byte = high * 16 + low;
    if octets::in_class(UNRESERVED, byte) {
        Some(byte)
    } else {
        None
    }
}

// Are two texts the same, once they are resolved?
pub fn same(a: &[u8], b: &[u8]) -> bool
    ensures { result ≡ same? (resolved a.now) (resolved b.now) }
{
    ResolvedBytes(a).eq(ResolvedBytes(b))
}

// How many bytes has a text, once it is resolved?
pub fn resolved_len(s: &[u8]) -> usize
    ensures { result ≡ length (resolved s.now) }
{
    if !has_percent(s) {
        return s.len();
    }
    ResolvedBytes(s).count()
}

// Does a `%` stand in the text? Without an early exit many bytes are looked at in one step.
fn has_percent(s: &[u8]) -> bool
    ensures { result ≡ percent? s.now }
{
    let mut found = false;
    for b in s {
        if *b == b'%' {
            found = true;
        }
    }
    found
}

// Puts a resolved text at `at` where it fits, keeps the rest of `out`, and gives the place behind it. Where it does not fit, `out`
// stays as it was, and the place is `at`.
pub fn put_resolved(s: &[u8], out: &mut [u8], at: usize) -> usize
    ensures ends { result ≡ behind out.old at (resolved s.now) }
    ensures writes { out.new ≡ placed out.old at (resolved s.now) }
{
    if !has_percent(s) {
        return text::put_bytes(s, out, at);
    }
    if at > out.len() || !fits(s, out.len() - at) {
        return at;
    }
    at + fill(&mut out[at..], s)
}

// Does a text fit into a room, once it is resolved? In room for all of its bytes it does.
fn fits(s: &[u8], room: usize) -> bool
    ensures { result ≡ leb (length (resolved s.now)) room }
{
    s.len() <= room || resolved_len(s) <= room
}

// Puts a resolved text, which fits, at the front of `dst`, and gives its length.
fn fill(dst: &mut [u8], s: &[u8]) -> usize
    requires { length (resolved s.now) ≤ length dst.old }
    ensures counts { result ≡ length (resolved s.now) }
    ensures writes { dst.new ≡ put (resolved s.now) dst.old }
{
    let mut len = 0;
    for byte in ResolvedBytes(s) {
        dst[len] = byte;
        len += 1;
    }
    len
}
