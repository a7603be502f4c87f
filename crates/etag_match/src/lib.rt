// Entity tags matched: RFC 2616 13.3.3.
#![tactic(auto)]

ghost use Rattle.std.specs.Prelude.{◌≡◌, MatchResult};
ghost use Rattle.grammar.specs.Reading.{value, refused};
ghost use Rattle.grammar.specs.helpers.Judge.{header};
ghost use Rattle.octets.specs.Comparing.{comparison};
ghost use Rattle.octets.specs.Reading.{number_of, place_of};
ghost use Rattle.etag.specs.Grammar.{rules};
ghost use Rattle.etag.specs.Reading.{opaque_bytes};
ghost use Rattle.etag_match.specs.Matching.{weak_matching, strong_matching};

use etag::Tag;
use octets::{PairRefusal, Refusal};

// Reads the first, then the second: neither is weak, and the quoted bytes are the same as sent.
pub fn strong_match(a: &[u8], b: &[u8]) -> Result<bool, PairRefusal>
    ensures { comparison result ≡ strong_matching a.now b.now }
{
    let (v, first) = read(a).map_err(PairRefusal::First)?;
    let (w, second) = read(b).map_err(PairRefusal::Second)?;
    Ok(!v.weak && !w.weak && octets::same(first, second))
}

// Reads the first, then the second: the quoted bytes are the same as sent.
pub fn weak_match(a: &[u8], b: &[u8]) -> Result<bool, PairRefusal>
    ensures { comparison result ≡ weak_matching a.now b.now }
{
    let (_, first) = read(a).map_err(PairRefusal::First)?;
    let (_, second) = read(b).map_err(PairRefusal::Second)?;
    Ok(octets::same(first, second))
}

// The tag, and the bytes between its quotes.
#[tactic(auto, using(crate::proofs::Within::within))]
fn read(s: &[u8]) -> Result<(Tag, &[u8]), Refusal>
    ensures { MatchResult result
        (λ r. (header rules s.now ≡ value r.0) × (r.1.now ≡ opaque_bytes s.now r.0))
        (λ e. header rules s.now ≡ refused (number_of e) (place_of e)) }
{
    let tag = etag::read(s)?;
    Ok((tag, &s[tag.start..tag.start + tag.length]))
}
