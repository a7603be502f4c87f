// Bytes and numbers put at a place of lent output.
#![tactic(auto)]

ghost use Rattle.std.specs.Prelude.{◌≡◌};
ghost use Rattle.numerals.specs.Numeral.{numeral, radix};
ghost use Rattle.text.specs.Placing.{placed, behind};

use numerals::Base;

// Each of these puts bytes at `at` where they fit, keeps the rest of `out`, and gives the place behind them. Where they do not fit,
// `out` stays as it was, and the place is `at`.

pub fn put_bytes(src: &[u8], out: &mut [u8], at: usize) -> usize
    ensures ends { result ≡ behind out.old at src.now }
    ensures writes { out.new ≡ placed out.old at src.now }
{
    if at > out.len() || src.len() > out.len() - at {
        return at;
    }
    let end = at + src.len();
    copying::copy(&mut out[at..end], src);
    end
}

pub fn put_numeral(n: u64, base: Base, out: &mut [u8], at: usize) -> usize
    ensures ends { result ≡ behind out.old at (numeral (radix base) n) }
    ensures writes { out.new ≡ placed out.old at (numeral (radix base) n) }
{
    if at > out.len() {
        return at;
    }
    let width = numerals::put(n, base, &mut out[at..]);
    if width > out.len() - at {
        return at;
    }
    at + width
}
