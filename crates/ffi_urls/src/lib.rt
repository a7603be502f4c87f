// URLs for C and Rust. Nothing is decided here.
#![tactic(auto)]

ghost use Rattle.std.specs.Prelude.{◌≡◌, length};
ghost use Rattle.grammar.specs.helpers.Judge.{header};
ghost use Rattle.octets.specs.Reading.{verdict};
ghost use Rattle.http_url.specs.Grammar.{rules as urls};
ghost use Rattle.url_equal.specs.Meaning.{equality as url-equality};
ghost use Rattle.url_normal.specs.Normal.{normal_writing, normal_output};
ghost use Rattle.ffi.specs.Fields.{same_fields, written_fields};
ghost use Rattle.ffi_urls.specs.Fields.{url_fields, span_fields, part_fields};

use ffi::{QzSame, QzWritten};
use http_url::{Span, Url};
use octets::Refusal;

// Where a part stands in the input.
#[repr(C)]
#[derive(Clone, Copy, Default)]
pub struct QzSpan {
    pub start: usize,
    pub length: usize,
}

// The same of a part that may be absent. A part that is present may be empty.
#[repr(C)]
#[derive(Clone, Copy, Default)]
pub struct QzPart {
    pub present: bool,
    pub start: usize,
    pub length: usize,
}

// A URL that was read.
#[repr(C)]
#[derive(Clone, Copy, Default)]
pub struct QzUrl {
    pub number: u8,
    pub place: usize,
    pub host: QzSpan,
    // 80 where it is empty or absent
    pub port: u16,
    // with its first `/`
    pub path: QzPart,
    // without the `?`
    pub query: QzPart,
}

// Where a part stands, as C sees it.
impl From<Span> for QzSpan {
    ghost from_gives = { λ x span. span ≡ span_fields x };

    fn from(x: Span) -> QzSpan {
        QzSpan {
            start: x.start,
            length: x.length,
        }
    }
}

// The same of a part that may be absent.
impl From<Option<Span>> for QzPart {
    ghost from_gives = { λ x part. part ≡ part_fields x };

    fn from(x: Option<Span>) -> QzPart {
        match x {
            None => QzPart::default(),
            Some(span) => QzPart {
                present: true,
                start: span.start,
                length: span.length,
            },
        }
    }
}

// What a reader of URLs gives, as C sees it.
impl From<Result<Url, Refusal>> for QzUrl {
    ghost from_gives = { λ u read. read ≡ url_fields (verdict u) };

    fn from(u: Result<Url, Refusal>) -> QzUrl {
        match u {
            Ok(u) => QzUrl {
                host: QzSpan::from(u.host),
                port: u.port,
                path: QzPart::from(u.path),
                query: QzPart::from(u.query),
                ..QzUrl::default()
            },
            Err(r) => QzUrl {
                number: r.number(),
                place: r.place(),
                ..QzUrl::default()
            },
        }
    }
}

// An http URL; the port is at most 65,535.
#[unsafe(no_mangle)]
pub extern "C" fn qz_url_read(s: &[u8]) -> QzUrl
    ensures { result ≡ url_fields (header urls s.now) }
{
    QzUrl::from(http_url::read(s))
}

// Reads first `a`, then `b`; `same` where they name the same page: host in any case, port as a number, an absent path
// as `/`, an escape of a letter, a digit or one of - _ . ! ~ * ' ( ) as that character.
#[unsafe(no_mangle)]
pub extern "C" fn qz_url_equal(a: &[u8], b: &[u8]) -> QzSame
    ensures { result ≡ same_fields (url-equality a.now b.now) }
{
    QzSame::from(url_equal::equal(a, b))
}

// Writes the normal form of a URL: scheme and host in lower case, no port 80, any other port without leading zeros, `/` for an absent
// path, no escape of a letter, a digit or one of - _ . ! ~ * ' ( ). All else stays as it is: any other escape, its letter case too, and
// `.` and `..` in a path. It is at most one byte longer than the URL, by that `/`. Two URLs whose normal forms are written are equal
// exactly where those have the same bytes. A normal form of 8,193 bytes is refused as a value that is too long; the place of that refusal,
// 8,192, counts in the normal form.
#[unsafe(no_mangle)]
pub extern "C" fn qz_url_normalize(s: &[u8], out: &mut [u8]) -> QzWritten
    ensures answers { result ≡ written_fields (normal_writing s.now (length out.old)) }
    ensures writes { out.new ≡ normal_output s.now out.old }
{
    QzWritten::from(url_normal::normalize(s, out))
}
