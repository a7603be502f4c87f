// http URLs in their normal form: document 02, request (x).
#![tactic(auto)]

ghost use Rattle.std.specs.Prelude.{◌≡◌, ◌++◌, min, ◌+◌, ◌≤◌, ◌<◌, length, drop};
ghost use Rattle.grammar.specs.Reading.{value_limit};
ghost use Rattle.octets.specs.Reading.{verdict};
ghost use Rattle.text.specs.Placing.{placed, behind};
ghost use Rattle.url_equal.specs.Meaning.{lower_all};
ghost use Rattle.url_equal.specs.Places.{query_in, page_in};
ghost use Rattle.url_normal.specs.Normal.{port_form, query_form, normal, within_limit};
ghost use Rattle.url_normal.specs.Normal.{answer_in_room, output_after, normal_writing, normal_output};

use http_url::Url;
use numerals::Base;
use octets::{Refusal, VALUE_LIMIT};

// The bytes of `http://`.
const SCHEME_LEN: usize = 7;

// The port that is not written.
const DEFAULT_PORT: u16 = 80;

// A URL that was read, and its parts.
#[derive(Clone, Copy)]
struct Parsed<'a> {
    text: &'a [u8],
    url: Url,
    ghost text_within_limit: { length text.now ≤ value_limit },
    ghost one_longer: { length (normal (page_in text.now url)) ≤ length text.now + 1 },
}

// Writes the normal form of a URL at the front of `out`, and keeps the rest of `out`.
pub fn normalize(s: &[u8], out: &mut [u8]) -> Result<usize, Refusal>
    ensures answers { verdict result ≡ normal_writing s.now (length out.old) }
    ensures writes { out.new ≡ normal_output s.now out.old }
{
    let url = http_url::read(s)?;
    Parsed { text: s, url }.write(out)
}

impl<'a> Parsed<'a> {
    // Writes the normal form.
    fn write(self, out: &mut [u8]) -> Result<usize, Refusal>
        ensures answers { verdict result
            ≡ answer_in_room (within_limit (normal (page_in self.entry.text.now self.entry.url))) (length out.old) }
        ensures writes { out.new ≡ output_after (within_limit (normal (page_in self.entry.text.now self.entry.url))) out.old }
    {
        let len = self.len_or_bound(out.len());
        if len > VALUE_LIMIT {
            return Err(Refusal::ValueTooLong);
        }
        if out.len() < len {
            return Err(Refusal::OutputTooShort);
        }
        Ok(self.put(out))
    }

    // The length of the normal form, or a bound on it that is within the limit and the room. The form is at most one byte longer than the
    // URL: in room for that it is not measured before it is written, and 8 KB of escapes are written in 0.75 of the time.
    fn len_or_bound(self, room: usize) -> usize
        ensures bounds { length (normal (page_in self.entry.text.now self.entry.url)) ≤ result }
        ensures exact { min value_limit room < result → result ≡ length (normal (page_in self.entry.text.now self.entry.url)) }
    {
        if self.text.len() < VALUE_LIMIT && self.text.len() < room {
            return self.text.len() + 1;
        }
        self.len()
    }

    // How many bytes has the normal form?
    fn len(self) -> usize
        ensures { result ≡ length (normal (page_in self.entry.text.now self.entry.url)) }
    {
        SCHEME_LEN
            + http_url::text_at(self.text, self.url.host).len()
            + port_len(self.url.port)
            + escapes::resolved_len(http_url::path_at(self.text, self.url))
            + self.query_len()
    }

    fn query_len(self) -> usize
        ensures { result ≡ length (query_form (query_in self.entry.text.now self.entry.url.query)) }
    {
        match self.url.query {
            None => 0,
            Some(span) => 1 + escapes::resolved_len(http_url::text_at(self.text, span)),
        }
    }

    // Puts the normal form at the front of `out`, part by part, and gives its length.
    fn put(self, out: &mut [u8]) -> usize
        requires { length (normal (page_in self.text.now self.url)) ≤ length out.old }
        ensures counts { result ≡ length (normal (page_in self.entry.text.now self.entry.url)) }
        ensures writes { out.new
            ≡ normal (page_in self.entry.text.now self.entry.url)
            ++ drop (length (normal (page_in self.entry.text.now self.entry.url))) out.old }
    {
        let scheme_end = text::put_bytes(b"http://", out, 0);
        let host_end = put_lower(http_url::text_at(self.text, self.url.host), out, scheme_end);
        let port_end = put_port(self.url.port, out, host_end);
        let path_end = escapes::put_resolved(http_url::path_at(self.text, self.url), out, port_end);
        self.put_query(out, path_end)
    }

    // Puts the query at `at`, where it fits, keeps the rest of `out`, and gives the place behind it.
    fn put_query(self, out: &mut [u8], at: usize) -> usize
        requires { at + length (query_form (query_in self.text.now self.url.query)) ≤ length out.old }
        ensures ends { result ≡ behind out.old at (query_form (query_in self.entry.text.now self.entry.url.query)) }
        ensures writes { out.new ≡ placed out.old at (query_form (query_in self.entry.text.now self.entry.url.query)) }
    {
        match self.url.query {
            None => at,
            Some(span) => {
                let mark_end = text::put_bytes(b"?", out, at);
                escapes::put_resolved(http_url::text_at(self.text, span), out, mark_end)
            }
        }
    }
}

fn port_len(port: u16) -> usize
    ensures is { result ≡ length (port_form port) }
    ensures small { result ≤ 6 }
{
    if port == DEFAULT_PORT {
        return 0;
    }
    1 + numerals::width(port as u64, Base::Decimal)
}

// Each of these two puts a part at `at`, where it fits, keeps the rest of `out`, and gives the place behind it.

fn put_lower(s: &[u8], out: &mut [u8], at: usize) -> usize
    requires { at + length s.now ≤ length out.old }
    ensures ends { result ≡ behind out.old at (lower_all s.now) }
    ensures writes { out.new ≡ placed out.old at (lower_all s.now) }
{
    let end = at + s.len();
    fill_lower(&mut out[at..end], s);
    end
}

fn fill_lower(dst: &mut [u8], s: &[u8])
    requires { length dst.old ≡ length s.now }
    ensures { dst.new ≡ lower_all s.now }
{
    for (i, b) in s.iter().enumerate() {
        dst[i] = octets::lower_case(*b);
    }
}

fn put_port(port: u16, out: &mut [u8], at: usize) -> usize
    requires { at + length (port_form port) ≤ length out.old }
    ensures ends { result ≡ behind out.old at (port_form port) }
    ensures writes { out.new ≡ placed out.old at (port_form port) }
{
    if port == DEFAULT_PORT {
        return at;
    }
    let colon_end = text::put_bytes(b":", out, at);
    text::put_numeral(port as u64, Base::Decimal, out, colon_end)
}
