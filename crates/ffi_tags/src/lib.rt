// Language tags and entity tags for C and Rust. Nothing is decided here.
#![tactic(auto)]

ghost use Rattle.std.specs.Prelude.{◌≡◌};
ghost use Rattle.grammar.specs.helpers.Judge.{header};
ghost use Rattle.octets.specs.Reading.{verdict};
ghost use Rattle.language.specs.Grammar.{rules as languages};
ghost use Rattle.language.specs.Reading.{equality};
ghost use Rattle.etag.specs.Grammar.{rules as etags};
ghost use Rattle.etag_match.specs.Matching.{strong_matching, weak_matching};
ghost use Rattle.ffi_tags.specs.Fields.{language_fields, etag_fields};
ghost use Rattle.ffi.specs.Fields.{same_fields};

use ffi::QzSame;
use octets::Refusal;

// A language tag that was read.
#[repr(C)]
#[derive(Clone, Copy, Default)]
pub struct QzLanguage {
    pub number: u8,
    pub place: usize,
    pub parts: usize,
    // how many letters the first part has
    pub primary: usize,
}

// An entity tag that was read.
#[repr(C)]
#[derive(Clone, Copy, Default)]
pub struct QzTag {
    pub number: u8,
    pub place: usize,
    pub weak: bool,
    // the first byte between the quotes
    pub start: usize,
    pub length: usize,
}

// What a reader of language tags gives, as C sees it.
impl From<Result<language::Tag, Refusal>> for QzLanguage {
    ghost from_gives = { λ v read. read ≡ language_fields (verdict v) };

    fn from(v: Result<language::Tag, Refusal>) -> QzLanguage {
        match v {
            Ok(v) => QzLanguage {
                parts: v.parts,
                primary: v.primary_length,
                ..QzLanguage::default()
            },
            Err(r) => QzLanguage {
                number: r.number(),
                place: r.place(),
                ..QzLanguage::default()
            },
        }
    }
}

// What a reader of entity tags gives, as C sees it.
impl From<Result<etag::Tag, Refusal>> for QzTag {
    ghost from_gives = { λ v read. read ≡ etag_fields (verdict v) };

    fn from(v: Result<etag::Tag, Refusal>) -> QzTag {
        match v {
            Ok(v) => QzTag {
                weak: v.weak,
                start: v.start,
                length: v.length,
                ..QzTag::default()
            },
            Err(r) => QzTag {
                number: r.number(),
                place: r.place(),
                ..QzTag::default()
            },
        }
    }
}

// A language tag: parts of 1 to 8 letters joined by `-`.
#[unsafe(no_mangle)]
pub extern "C" fn qz_language_read(s: &[u8]) -> QzLanguage
    ensures { result ≡ language_fields (header languages s.now) }
{
    QzLanguage::from(language::read(s))
}

// Reads first `a`, then `b`; `same` where they are equal, ignoring case.
#[unsafe(no_mangle)]
pub extern "C" fn qz_language_equal(a: &[u8], b: &[u8]) -> QzSame
    ensures { result ≡ same_fields (equality a.now b.now) }
{
    QzSame::from(language::equal(a, b))
}

// An entity tag: optional `W/` in either case, then a quoted string.
#[unsafe(no_mangle)]
pub extern "C" fn qz_etag_read(s: &[u8]) -> QzTag
    ensures { result ≡ etag_fields (header etags s.now) }
{
    QzTag::from(etag::read(s))
}

// Reads first `a`, then `b`; `same` where neither is weak and the quoted bytes are the same as sent.
#[unsafe(no_mangle)]
pub extern "C" fn qz_etag_strong_match(a: &[u8], b: &[u8]) -> QzSame
    ensures { result ≡ same_fields (strong_matching a.now b.now) }
{
    QzSame::from(etag_match::strong_match(a, b))
}

// Reads first `a`, then `b`; `same` where the quoted bytes are the same as sent.
#[unsafe(no_mangle)]
pub extern "C" fn qz_etag_weak_match(a: &[u8], b: &[u8]) -> QzSame
    ensures { result ≡ same_fields (weak_matching a.now b.now) }
{
    QzSame::from(etag_match::weak_match(a, b))
}
