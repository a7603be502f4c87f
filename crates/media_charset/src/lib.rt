// The charset of a media type: the effective one, and with the default of RFC 2616 3.7.1.
#![tactic(auto)]

ghost use Rattle.std.specs.Prelude.{◌≡◌};
ghost use Rattle.grammar.specs.helpers.Judge.{header};
ghost use Rattle.media_charset.specs.Charset.{default_charset, charsets, effective_charsets, charsets_assuming_iso_8859_1};
ghost use Rattle.media_charset.specs.Reading.{effective, charset_verdict};

use octets::Refusal;

// Where the parameter's value stands; ISO-8859-1 for `text` without it, where that is assumed; or none.
#[derive(Clone, Copy, Debug, PartialEq, Eq)]
pub enum Charset {
    Stated {
        start: usize,
        length: usize,
        quoted: bool,
    },
    Latin1,
    NotStated,
}

// The effective charset: the value of the parameter `charset`, or none without it, for every type. It is never `Latin1`.
pub fn effective_charset(s: &[u8]) -> Result<Charset, Refusal>
    ensures { charset_verdict result ≡ header effective_charsets s.now }
{
    read_charset(s, false)
}

// As `effective_charset`, but type `text` without the parameter has ISO-8859-1: the default of RFC 2616 3.7.1, which RFC 7231 dropped.
pub fn charset_assuming_iso_8859_1(s: &[u8]) -> Result<Charset, Refusal>
    ensures { charset_verdict result ≡ header charsets_assuming_iso_8859_1 s.now }
{
    read_charset(s, true)
}

// The value of `charset`, or what holds without it, with ISO-8859-1 assumed of `text` or not.
fn read_charset(s: &[u8], assumed: bool) -> Result<Charset, Refusal>
    ensures { charset_verdict result ≡ header (charsets assumed) s.now }
{
    let m = media::read(s)?;
    let parameters = m.used();
    for p in parameters {
        if octets::same_ignoring_case(media::part(s, p.start, p.length), b"charset") {
            return Ok(Charset::Stated {
                start: p.value_start,
                length: p.value_length,
                quoted: p.quoted,
            });
        }
    }
    let name = media::part(s, m.names.type_start, m.names.type_length);
    Ok(default_charset(name, assumed))
}

// The charset of a type without the parameter.
fn default_charset(name: &[u8], assumed: bool) -> Charset
    ensures { effective result ≡ default_charset assumed name.now }
{
    if assumed && octets::same_ignoring_case(name, b"text") {
        return Charset::Latin1;
    }
    Charset::NotStated
}
