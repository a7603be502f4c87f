// HTTP versions given as bytes, compared: RFC 2616 3.1.
#![tactic(auto)]

ghost use Rattle.std.specs.Prelude.{◌≡◌};
ghost use Rattle.grammar.specs.Comparing.{compare as comparing};
ghost use Rattle.grammar.specs.helpers.Judge.{header};
ghost use Rattle.version.specs.Grammar.{rules};
ghost use Rattle.version.specs.Reading.{precedence};
ghost use Rattle.octets.specs.Comparing.{comparison};

use octets::PairRefusal;
use std::cmp::Ordering;
use version::Version;

// Reads the first, then the second, and compares them.
pub fn compare(a: &[u8], b: &[u8]) -> Result<Ordering, PairRefusal>
    ensures { comparison result ≡ comparing precedence (header rules a.now) (header rules b.now) }
{
    let first = Version::read(a).map_err(PairRefusal::First)?;
    let second = Version::read(b).map_err(PairRefusal::Second)?;
    Ok(first.compare(second))
}
