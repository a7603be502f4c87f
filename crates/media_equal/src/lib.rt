// Media types compared by what they mean: RFC 2616 3.7.
#![tactic(auto)]

ghost use Rattle.std.specs.Prelude.{◌≡◌};
ghost use Rattle.std.specs.Iterator.{YieldsFirst, item_count};
ghost use Rattle.std.specs.List.{list_any, list_all};
ghost use Rattle.octets.specs.Comparing.{comparison};
ghost use Rattle.media.specs.Reading.{read_already};
ghost use Rattle.media_equal.specs.Meaning.{unquoted, same_text, same_setting, same_meaning};
ghost use Rattle.media_equal.specs.Places.{setting_at, meaning_at};
ghost use Rattle.media_equal.specs.Reading.{equality};
ghost use Rattle.media_equal.specs.helpers.Places.{same_names};

use media::{Media, MediaType, Parameter, part};
use octets::PairRefusal;

// The bytes that a value stands for, one by one, given what is left of the value.
#[derive(Drop)]
struct UnquotedBytes<'a> {
    rest: &'a [u8],
    quoted: bool,
}

impl<'a> Iterator for UnquotedBytes<'a> {
    type Item = u8;

    ghost next_gives = { YieldsFirst (λ s. unquoted s.quoted s.rest.now) };

    ghost remaining = { item_count (λ s. unquoted s.quoted s.rest.now) };

    fn next(&mut self) -> Option<u8> {
        let (byte, rest) = match self.rest {
            [b'\\', second, rest @ ..] if self.quoted => (second, rest),
            [first, rest @ ..] => (first, rest),
            [] => return None,
        };
        self.rest = rest;
        Some(*byte)
    }
}

// Reads the first, then the second, and compares what they mean.
pub fn equal(a: &[u8], b: &[u8]) -> Result<bool, PairRefusal>
    ensures { comparison result ≡ equality a.now b.now }
{
    let m = media::read(a).map_err(PairRefusal::First)?;
    let n = media::read(b).map_err(PairRefusal::Second)?;
    Ok(same_media(a, &m, b, &n))
}

fn same_media(a: &[u8], m: &Media, b: &[u8], n: &Media) -> bool
    ensures { result ≡ same_meaning (meaning_at a.now m.now.names (read_already m.now))
        (meaning_at b.now n.now.names (read_already n.now)) }
{
    if !same_names(a, m.names, b, n.names) {
        return false;
    }
    if !has_parameters(a, m.used(), b, n.used()) {
        return false;
    }
    has_parameters(b, n.used(), a, m.used())
}

// Are type and subtype the same, letter case ignored?
fn same_names(a: &[u8], m: MediaType, b: &[u8], n: MediaType) -> bool
    ensures { result ≡ same_names a.now m b.now n }
{
    let x = part(a, m.type_start, m.type_length);
    let y = part(b, n.type_start, n.type_length);
    if !octets::same_ignoring_case(x, y) {
        return false;
    }
    let x = part(a, m.subtype_start, m.subtype_length);
    let y = part(b, n.subtype_start, n.subtype_length);
    octets::same_ignoring_case(x, y)
}

// Is each of the parameters of `a` one of those of `b`?
fn has_parameters(a: &[u8], parameters: &[Parameter], b: &[u8], others: &[Parameter]) -> bool
    ensures { result ≡ list_all (λ p. list_any (λ q. same_setting (setting_at a.now p) (setting_at b.now q)) others.now) parameters.now }
{
    parameters.iter().all(|p| has_parameter(a, *p, b, others))
}

// Is the parameter one of those of `b`?
fn has_parameter(a: &[u8], p: Parameter, b: &[u8], others: &[Parameter]) -> bool
    ensures { result ≡ list_any (λ q. same_setting (setting_at a.now p) (setting_at b.now q)) others.now }
{
    others.iter().any(|q| same_parameter(a, p, b, *q))
}

// Names ignore letter case, and so does the value of `charset`; values are compared as what they stand for.
fn same_parameter(a: &[u8], p: Parameter, b: &[u8], q: Parameter) -> bool
    ensures { result ≡ same_setting (setting_at a.now p) (setting_at b.now q) }
{
    let x = part(a, p.start, p.length);
    let y = part(b, q.start, q.length);
    if !octets::same_ignoring_case(x, y) {
        return false;
    }
    let folded = octets::same_ignoring_case(x, b"charset");
    same_value(value(a, p), value(b, q), folded)
}

// The value of a parameter, as what it stands for.
fn value(s: &[u8], p: Parameter) -> UnquotedBytes<'_>
    ensures { unquoted result.quoted result.rest.now ≡ (setting_at s.now p).value }
{
    UnquotedBytes {
        rest: part(s, p.value_start, p.value_length),
        quoted: p.quoted,
    }
}

// Do two values stand for the same bytes, letter case ignored or not?
fn same_value(v: UnquotedBytes<'_>, w: UnquotedBytes<'_>, folded: bool) -> bool
    ensures { result ≡ same_text folded (unquoted v.entry.quoted v.entry.rest.now) (unquoted w.entry.quoted w.entry.rest.now) }
{
    if folded {
        v.map(octets::lower_case).eq(w.map(octets::lower_case))
    } else {
        v.eq(w)
    }
}
