// HTTP versions: RFC 2616 3.1.
#![tactic(auto)]

ghost use Rattle.std.specs.Prelude.{◌≡◌, length};
ghost use Rattle.grammar.specs.helpers.Judge.{header};
ghost use Rattle.version.specs.Grammar.{rules};
ghost use Rattle.version.specs.Reading.{precedence, numbered, http_1_1, http_1_0};
ghost use Rattle.version.specs.helpers.Scan.{AfterMajor};
ghost use Rattle.version.specs.Writing.{version_writing, version_output};
ghost use Rattle.octets.specs.Reading.{verdict};

use octets::Refusal;
use scans::Decimal;
use std::cmp::Ordering;

// The largest number in a version.
const NUMBER_LIMIT: u64 = 65535;

// The bytes of the name and its slash.
const NAME_LEN: usize = 5;

// Ordered by major, then minor, as numbers: in the order of the fields.
#[derive(Clone, Copy, Debug, PartialEq, Eq, PartialOrd, Ord)]
pub struct Version {
    pub major: u32,
    pub minor: u32,
}

impl Version {
    pub const HTTP_1_1: Version = Version { major: 1, minor: 1 };

    pub const HTTP_1_0: Version = Version { major: 1, minor: 0 };

    // The order of versions. A constant has no contract: what the two above are is promised here.
    pub fn compare(self, other: Version) -> Ordering
        ensures orders { result ≡ precedence self other }
        ensures later { numbered Self.HTTP_1_1.major Self.HTTP_1_1.minor ≡ http_1_1 }
        ensures earlier { numbered Self.HTTP_1_0.major Self.HTTP_1_0.minor ≡ http_1_0 }
    {
        self.cmp(&other)
    }

    // `HTTP/` in any letter case, digits, `.`, digits.
    pub fn read(s: &[u8]) -> Result<Version, Refusal>
        ensures { verdict result ≡ header rules s.now }
    {
        octets::check_length(s)?;
        let agreed = scans::word_at(b"HTTP/", s, 0);
        if agreed < NAME_LEN {
            return Err(Refusal::Malformed(agreed));
        }
        match scans::read_decimal(s, NAME_LEN, NUMBER_LIMIT) {
            Decimal::Number { value, end } => read_minor(s, value, end),
            Decimal::Above { place, .. } => Err(Refusal::NumberAboveLimit(place)),
            Decimal::Missing => Err(Refusal::Malformed(NAME_LEN)),
        }
    }

    // Writes the version at the front of `out`, in capitals and without leading zeros, and keeps the rest of `out`.
    pub fn write(self, out: &mut [u8]) -> Result<usize, Refusal>
        ensures answers { verdict result ≡ version_writing self (length out.old) }
        ensures writes { out.new ≡ version_output self out.old }
    {
        version_writer::write(self.major, self.minor, out)
    }
}

// Reads on from the place behind the major number.
fn read_minor(s: &[u8], major: u64, at: usize) -> Result<Version, Refusal>
    requires { AfterMajor s.now major at }
    ensures { verdict result ≡ header rules s.now }
{
    if at >= s.len() || s[at] != b'.' {
        return Err(Refusal::Malformed(at));
    }
    match scans::read_decimal(s, at + 1, NUMBER_LIMIT) {
        Decimal::Number { value, end } => {
            if end < s.len() {
                return Err(Refusal::Malformed(end));
            }
            Ok(Version {
                major: major as u32,
                minor: value as u32,
            })
        }
        Decimal::Above { place, .. } => Err(Refusal::NumberAboveLimit(place)),
        Decimal::Missing => Err(Refusal::Malformed(at + 1)),
    }
}
