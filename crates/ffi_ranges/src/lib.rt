// Byte ranges and Content-Range for C and Rust. Nothing is decided here.
#![tactic(auto)]

ghost use Rattle.std.specs.Prelude.{◌≡◌, map, length};
ghost use Rattle.ranges.specs.Reading.{reading, verdict, entries};
ghost use Rattle.content_range_writer.specs.Writing.{content_range_writing, content_range_output};
ghost use Rattle.ffi_ranges.specs.Fields.{range_fields, with_table, ranges_fields};
ghost use Rattle.ffi.specs.Fields.{written_fields};

use ffi::QzWritten;
use octets::Refusal;
use ranges::{Range, Ranges};

// A byte range: the positions of its first and its last byte, counted from 0.
#[repr(C)]
#[derive(Clone, Copy)]
pub struct QzRange {
    pub first: u64,
    pub last: u64,
}

// Byte ranges that were read, resolved against the length of an entity.
#[repr(C)]
#[derive(Clone, Copy)]
pub struct QzRanges {
    pub number: u8,
    pub place: usize,
    // the set is well-formed, and no range of it is left
    pub unsatisfiable: bool,
    // how many ranges there are
    pub count: usize,
    // in the order sent; unused entries are zero
    pub ranges: [QzRange; 16],
}

// How many entries QzRanges.ranges has.
pub const RANGES: usize = 16;

// An entry of the table that is not used.
const UNUSED: QzRange = QzRange { first: 0, last: 0 };

// Where no range is left, or nothing was read.
const NO_RANGES: QzRanges = QzRanges {
    number: 0,
    place: 0,
    unsatisfiable: false,
    count: 0,
    ranges: [UNUSED; RANGES],
};

// A range, as C sees it.
impl From<Range> for QzRange {
    ghost from_gives = { λ r range. range ≡ range_fields r };

    fn from(r: Range) -> QzRange {
        QzRange {
            first: r.first,
            last: r.last,
        }
    }
}

// What a reader of ranges gives, as C sees it.
impl From<Result<Option<Ranges>, Refusal>> for QzRanges {
    ghost from_gives = { λ r ranges. ranges ≡ with_table (verdict r) (map range_fields (entries r)) };

    fn from(r: Result<Option<Ranges>, Refusal>) -> QzRanges {
        match r {
            Ok(Some(set)) => QzRanges {
                count: set.count,
                ranges: set.entries.map(QzRange::from),
                ..NO_RANGES
            },
            Ok(None) => QzRanges {
                unsatisfiable: true,
                ..NO_RANGES
            },
            Err(r) => QzRanges {
                number: r.number(),
                place: r.place(),
                ..NO_RANGES
            },
        }
    }
}

// Byte ranges: `bytes=`, then elements first-last, first- or -size with blanks around their commas only. They are resolved against an
// entity of so many bytes: a last beyond its end is cut, a longer suffix is the whole entity, an empty range is left out. Where none is
// left, `number` and `count` are 0 and `unsatisfiable` is set. An entity of more than 2^63 - 1 bytes is refused, before all else.
#[unsafe(no_mangle)]
pub extern "C" fn qz_ranges_read(s: &[u8], entity_length: u64) -> QzRanges
    ensures { result ≡ ranges_fields (reading entity_length s.now) }
{
    QzRanges::from(ranges::read(s, entity_length))
}

// Writes the Content-Range value of one range, as `bytes 0-499/1234`, at most 65 bytes: first is at most last, last is below the length of
// the entity, and that is at most 2^63 - 1.
#[unsafe(no_mangle)]
pub extern "C" fn qz_content_range_write(
    first: u64,
    last: u64,
    entity_length: u64,
    out: &mut [u8],
) -> QzWritten
    ensures answers { result ≡ written_fields (content_range_writing first last entity_length (length out.old)) }
    ensures writes { out.new ≡ content_range_output first last entity_length out.old }
{
    QzWritten::from(content_range_writer::write(first, last, entity_length, out))
}
