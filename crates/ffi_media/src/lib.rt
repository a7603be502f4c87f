// Media types for C and Rust. Nothing is decided here.
#![tactic(auto)]

ghost use Rattle.std.specs.Prelude.{◌≡◌, map};
ghost use Rattle.grammar.specs.helpers.Judge.{header};
ghost use Rattle.media.specs.Grammar.{rules as media-types};
ghost use Rattle.media.specs.Reading.{verdict, table_in};
ghost use Rattle.ffi_media.specs.Fields.{parameter_fields, with_table, media_fields};

use media::{Media, Parameter};
use octets::Refusal;

// An attribute, and its value without its quotes; pairs stay as sent.
#[repr(C)]
#[derive(Clone, Copy)]
pub struct QzParameter {
    pub start: usize,
    pub length: usize,
    pub value_start: usize,
    pub value_length: usize,
    pub quoted: bool,
}

// A media type that was read.
#[repr(C)]
#[derive(Clone, Copy)]
pub struct QzMedia {
    pub number: u8,
    pub place: usize,
    pub type_start: usize,
    pub type_length: usize,
    pub subtype_start: usize,
    pub subtype_length: usize,
    // how many parameters there are
    pub count: usize,
    // in the order sent; unused entries are zero
    pub parameters: [QzParameter; 16],
}

// How many entries QzMedia.parameters has.
pub const PARAMETERS: usize = 16;

// An entry of the table that is not used.
const UNUSED: QzParameter = QzParameter {
    start: 0,
    length: 0,
    value_start: 0,
    value_length: 0,
    quoted: false,
};

// Where nothing was read.
const NO_MEDIA: QzMedia = QzMedia {
    number: 0,
    place: 0,
    type_start: 0,
    type_length: 0,
    subtype_start: 0,
    subtype_length: 0,
    count: 0,
    parameters: [UNUSED; PARAMETERS],
};

// A parameter, as C sees it.
impl From<Parameter> for QzParameter {
    ghost from_gives = { λ p parameter. parameter ≡ parameter_fields p };

    fn from(p: Parameter) -> QzParameter {
        QzParameter {
            start: p.start,
            length: p.length,
            value_start: p.value_start,
            value_length: p.value_length,
            quoted: p.quoted,
        }
    }
}

// The entries of the table, one by one: with the array's own `map` a media type is read in four times the time.
fn entries_of(table: &[Parameter; PARAMETERS]) -> [QzParameter; PARAMETERS]
    ensures { result ≡ map parameter_fields table.now }
{
    let mut entries = [UNUSED; PARAMETERS];
    for i in 0..PARAMETERS {
        entries[i] = QzParameter::from(table[i]);
    }
    entries
}

// What a reader of media types gives, as C sees it.
impl From<Result<Media, Refusal>> for QzMedia {
    ghost from_gives = { λ m media. media ≡ with_table (verdict m) (map parameter_fields (table_in m)) };

    fn from(m: Result<Media, Refusal>) -> QzMedia {
        match m {
            Ok(m) => QzMedia {
                type_start: m.names.type_start,
                type_length: m.names.type_length,
                subtype_start: m.names.subtype_start,
                subtype_length: m.names.subtype_length,
                count: m.names.count,
                parameters: entries_of(&m.parameters),
                ..NO_MEDIA
            },
            Err(r) => QzMedia {
                number: r.number(),
                place: r.place(),
                ..NO_MEDIA
            },
        }
    }
}

// A media type: type `/` subtype, then parameters with blanks around their `;` only.
#[unsafe(no_mangle)]
pub extern "C" fn qz_media_read(s: &[u8]) -> QzMedia
    ensures { result ≡ media_fields (header media-types s.now) }
{
    QzMedia::from(media::read(s))
}
