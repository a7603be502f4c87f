// Language tags: RFC 2616 3.10.
#![tactic(auto)]

ghost use Rattle.std.specs.Prelude.{◌≡◌};
ghost use Rattle.grammar.specs.helpers.Judge.{header};
ghost use Rattle.octets.specs.Comparing.{comparison};
ghost use Rattle.octets.specs.Reading.{verdict};
ghost use Rattle.language.specs.Grammar.{rules};
ghost use Rattle.language.specs.Reading.{equality};
ghost use Rattle.language.specs.helpers.Scan.{part_end, Behind};

use octets::{PairRefusal, Refusal};

// The most letters of a part.
const PART_LIMIT: usize = 8;

// How many parts a tag has, and how many letters the first of them has.
#[derive(Clone, Copy, Debug, PartialEq, Eq)]
pub struct Tag {
    pub parts: usize,
    pub primary_length: usize,
}

// Parts of 1 to 8 letters joined by `-`.
pub fn read(s: &[u8]) -> Result<Tag, Refusal>
    ensures { verdict result ≡ header rules s.now }
{
    octets::check_length(s)?;
    let end = part_end(s, 0);
    if end == 0 {
        return Err(Refusal::Malformed(0));
    }
    read_subtags(s, end)
}

// Reads the first, then the second, and compares them, letter case ignored.
pub fn equal(a: &[u8], b: &[u8]) -> Result<bool, PairRefusal>
    ensures { comparison result ≡ equality a.now b.now }
{
    read(a).map_err(PairRefusal::First)?;
    read(b).map_err(PairRefusal::Second)?;
    Ok(octets::same_ignoring_case(a, b))
}

// Reads on behind the first part.
fn read_subtags(s: &[u8], primary_length: usize) -> Result<Tag, Refusal>
    requires { Behind s.now 1 primary_length primary_length }
    ensures { verdict result ≡ header rules s.now }
{
    let mut parts = 1;
    // a cursor: each part has its own length
    let mut at = primary_length;
    while at < s.len() {
        if s[at] != b'-' {
            return Err(Refusal::Malformed(at));
        }
        let end = part_end(s, at + 1);
        if end == at + 1 {
            return Err(Refusal::Malformed(end));
        }
        parts += 1;
        at = end;
    }
    Ok(Tag {
        parts,
        primary_length,
    })
}

// The place behind the letters at `from`, of which a part takes at most eight.
fn part_end(s: &[u8], from: usize) -> usize
    ensures { result ≡ part_end s.now from }
{
    let end = scans::class_end(octets::LETTER, s, from);
    from + (end - from).min(PART_LIMIT)
}
