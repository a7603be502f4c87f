// Quality values read: RFC 2616 3.9.
#![tactic(auto)]

ghost use Rattle.std.specs.Prelude.{◌≡◌, true, ◌≤◌};
ghost use Rattle.grammar.specs.helpers.Judge.{header};
ghost use Rattle.octets.specs.Bytes.{digit?};
ghost use Rattle.octets.specs.Reading.{verdict};
ghost use Rattle.qvalue.specs.Grammar.{rules};
ghost use Rattle.qvalue.specs.helpers.Scan.{AfterWhole, byte_or_zero, digit_value};

use octets::{Class, Refusal};

// The longest qvalue.
const LONGEST: usize = 5;

const ZERO: Class = [0x1000000000000, 0, 0, 0];

// A qvalue in thousandths, 0 to 1000: `0` with an optional point and up to three digits, or `1` with an optional point and up to three
// zeros.
pub fn read(s: &[u8]) -> Result<u16, Refusal>
    ensures { verdict result ≡ header rules s.now }
{
    octets::check_length(s)?;
    match s.first() {
        Some(b'0') => read_fraction(s, 0, octets::DIGIT),
        Some(b'1') => read_fraction(s, 1, ZERO),
        _ => Err(Refusal::Malformed(0)),
    }
}

// Reads on behind the first digit, whose value is `whole`; the digits behind the point are of that class.
fn read_fraction(s: &[u8], whole: u16, class: Class) -> Result<u16, Refusal>
    requires { AfterWhole s.now whole class }
    ensures { verdict result ≡ header rules s.now }
{
    if s.len() == 1 {
        return Ok(whole * 1000);
    }
    if s[1] != b'.' {
        return Err(Refusal::Malformed(1));
    }
    let end = scans::class_end(class, s, 2).min(LONGEST);
    if end < s.len() {
        return Err(Refusal::Malformed(end));
    }
    Ok(whole * 1000 + digit_at(s, 2) * 100 + digit_at(s, 3) * 10 + digit_at(s, 4))
}

// The value of the digit at that place; none there is as good as a zero.
fn digit_at(s: &[u8], i: usize) -> u16
    requires { digit? (byte_or_zero s.now i) ≡ true }
    ensures { (result ≡ digit_value s.now i) × (result ≤ 9) }
{
    if i < s.len() {
        u16::from(s[i] - b'0')
    } else {
        0
    }
}
