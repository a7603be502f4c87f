// Delta-seconds: RFC 2616 3.3.2.
#![tactic(auto)]

ghost use Rattle.std.specs.Prelude.{◌≡◌};
ghost use Rattle.grammar.specs.helpers.Judge.{header};
ghost use Rattle.delta.specs.Grammar.{rules};
ghost use Rattle.octets.specs.Reading.{verdict};
ghost use Rattle.delta.specs.helpers.Scan.{AfterDigits};

use octets::Refusal;
use scans::Decimal;

// The largest number of seconds, and what stands for more: RFC 2616 14.6.
const SECONDS_LIMIT: u64 = 2147483647;

const SECONDS_CAP: u32 = 2147483648;

#[derive(Clone, Copy)]
pub struct Seconds {
    pub value: u32,
    // The number is above the largest, and `value` stands for it.
    pub capped: bool,
}

// One or more digits; a number above the largest is capped.
pub fn read(s: &[u8]) -> Result<Seconds, Refusal>
    ensures { verdict result ≡ header rules s.now }
{
    octets::check_length(s)?;
    match scans::read_decimal(s, 0, SECONDS_LIMIT) {
        Decimal::Number { value, end } => {
            let seconds = Seconds {
                value: value as u32,
                capped: false,
            };
            read_end(s, seconds, end)
        }
        Decimal::Above { place: _, end } => {
            let seconds = Seconds {
                value: SECONDS_CAP,
                capped: true,
            };
            read_end(s, seconds, end)
        }
        Decimal::Missing => Err(Refusal::Malformed(0)),
    }
}

// Reads on from the place behind the digits, where nothing may stand.
fn read_end(s: &[u8], seconds: Seconds, at: usize) -> Result<Seconds, Refusal>
    requires { AfterDigits s.now seconds at }
    ensures { verdict result ≡ header rules s.now }
{
    if at < s.len() {
        return Err(Refusal::Malformed(at));
    }
    Ok(seconds)
}
