// Media types compared, and their charset, for C and Rust. Nothing is decided here.
#![tactic(auto)]

ghost use Rattle.std.specs.Prelude.{◌≡◌};
ghost use Rattle.grammar.specs.helpers.Judge.{header};
ghost use Rattle.media_charset.specs.Charset.{effective_charsets, charsets_assuming_iso_8859_1};
ghost use Rattle.media_charset.specs.Reading.{charset_verdict};
ghost use Rattle.media_equal.specs.Reading.{equality as media-equality};
ghost use Rattle.ffi.specs.Fields.{same_fields};
ghost use Rattle.ffi_media_equal.specs.Fields.{charset_fields};

use ffi::QzSame;
use media_charset::Charset;
use octets::Refusal;

// QzCharset.kind where number is 0: none is stated.
pub const NO_CHARSET: u8 = 0;

// It is the value of the parameter `charset`.
pub const STATED_CHARSET: u8 = 1;

// The charset of a media type.
#[repr(C)]
#[derive(Clone, Copy, Default)]
pub struct QzCharset {
    pub number: u8,
    pub place: usize,
    // QZ_NO_CHARSET, QZ_STATED_CHARSET or, where that is assumed, QZ_ISO_8859_1
    pub kind: u8,
    // of a stated charset, without its quotes
    pub start: usize,
    pub length: usize,
    pub quoted: bool,
}

// What a reader of charsets gives, as C sees it.
impl From<Result<Charset, Refusal>> for QzCharset {
    ghost from_gives = { λ c charset. charset ≡ charset_fields (charset_verdict c) };

    fn from(c: Result<Charset, Refusal>) -> QzCharset {
        match c {
            Ok(Charset::NotStated) => QzCharset {
                kind: NO_CHARSET,
                ..QzCharset::default()
            },
            Ok(
                Charset::Stated {
                    start,
                    length,
                    quoted,
                },
            ) => QzCharset {
                kind: STATED_CHARSET,
                start,
                length,
                quoted,
                ..QzCharset::default()
            },
            Ok(Charset::Latin1) => QzCharset {
                kind: ISO_8859_1,
                ..QzCharset::default()
            },
            Err(r) => QzCharset {
                number: r.number(),
                place: r.place(),
                ..QzCharset::default()
            },
        }
    }
}

// Reads first `a`, then `b`; `same` where type, subtype and the set of parameters agree: names in any case, values
// after unquoting, the value of `charset` in any case.
#[unsafe(no_mangle)]
pub extern "C" fn qz_media_equal(a: &[u8], b: &[u8]) -> QzSame
    ensures { result ≡ same_fields (media-equality a.now b.now) }
{
    QzSame::from(media_equal::equal(a, b))
}

// The effective charset of a media type: the value of its parameter `charset`, or none without it, for every type.
#[unsafe(no_mangle)]
pub extern "C" fn qz_media_charset(s: &[u8]) -> QzCharset
    ensures { result ≡ charset_fields (header effective_charsets s.now) }
{
    QzCharset::from(media_charset::effective_charset(s))
}

// QzCharset.kind by qz_media_charset_assuming_iso_8859_1 alone: type `text`, in any letter case, without the parameter.
pub const ISO_8859_1: u8 = 2;

// As qz_media_charset, but type `text` without the parameter has ISO-8859-1: the default of RFC 2616 3.7.1, which
// RFC 7231 dropped. For callers that rely on it.
#[unsafe(no_mangle)]
pub extern "C" fn qz_media_charset_assuming_iso_8859_1(s: &[u8]) -> QzCharset
    ensures { result ≡ charset_fields (header charsets_assuming_iso_8859_1 s.now) }
{
    QzCharset::from(media_charset::charset_assuming_iso_8859_1(s))
}
