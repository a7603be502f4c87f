// Entity tags read: RFC 2616 3.11.
#![tactic(auto)]

ghost use Rattle.std.specs.Prelude.{◌≡◌};
ghost use Rattle.grammar.specs.helpers.Judge.{header};
ghost use Rattle.octets.specs.Reading.{verdict};
ghost use Rattle.scans.specs.helpers.Words.{agreeing};
ghost use Rattle.etag.specs.Grammar.{mark, rules};
ghost use Rattle.etag.specs.helpers.Scan.{AfterMark, AfterQuote};

use octets::Refusal;

// The bytes of `W/`.
const MARK_LEN: usize = 2;

// Whether a tag is weak, and the start and length of what stands between its quotes.
#[derive(Clone, Copy, Debug, PartialEq, Eq)]
pub struct Tag {
    pub weak: bool,
    pub start: usize,
    pub length: usize,
}

// An optional `W/` in either letter case, and a quoted string.
pub fn read(s: &[u8]) -> Result<Tag, Refusal>
    ensures { verdict result ≡ header rules s.now }
{
    octets::check_length(s)?;
    let agreed = mark_len(s);
    if agreed == 1 {
        return Err(Refusal::Malformed(agreed));
    }
    read_opaque(s, agreed == MARK_LEN, agreed)
}

// How many bytes of the mark stand at the front. A quote says that there is none: `"xyzzy"` is read in 0.9 of the time.
#[tactic(auto, using(crate::proofs::Scan::quote_first))]
fn mark_len(s: &[u8]) -> usize
    ensures { result ≡ agreeing mark s.now }
{
    match s.first() {
        Some(b'"') => 0,
        _ => scans::word_at(b"W/", s, 0),
    }
}

// Reads on from the place behind the mark, if there is one.
fn read_opaque(s: &[u8], weak: bool, at: usize) -> Result<Tag, Refusal>
    requires { AfterMark s.now weak at }
    ensures { verdict result ≡ header rules s.now }
{
    if at >= s.len() || s[at] != b'"' {
        return Err(Refusal::Malformed(at));
    }
    read_inside(s, weak, at + 1)
}

// Reads on from the place behind the opening quote.
fn read_inside(s: &[u8], weak: bool, start: usize) -> Result<Tag, Refusal>
    requires { AfterQuote s.now weak start }
    ensures { verdict result ≡ header rules s.now }
{
    let end = scans::quoted_end(s, start);
    if end >= s.len() || s[end] != b'"' {
        return Err(Refusal::Malformed(end));
    }
    if end + 1 < s.len() {
        return Err(Refusal::Malformed(end + 1));
    }
    Ok(Tag {
        weak,
        start,
        length: end - start,
    })
}
