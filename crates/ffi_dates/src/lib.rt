// Dates for C and Rust. Nothing is decided here.
#![tactic(auto)]

ghost use Rattle.std.specs.Prelude.{◌≡◌, length};
ghost use Rattle.octets.specs.Reading.{verdict};
ghost use Rattle.date.specs.Reading.{reading};
ghost use Rattle.date_writer.specs.Writing.{date_writing, date_output};
ghost use Rattle.ffi_dates.specs.Fields.{date_fields};
ghost use Rattle.ffi.specs.Fields.{written_fields};

use date::Date;
use ffi::QzWritten;
use octets::Refusal;

// A date that was read.
#[repr(C)]
#[derive(Clone, Copy, Default)]
pub struct QzDate {
    pub number: u8,
    pub place: usize,
    // since 1970-01-01 00:00:00; negative before it
    pub seconds: i64,
    // 1583 to 9999
    pub year: u32,
    // from 1
    pub month: u32,
    pub day: u32,
    pub hour: u32,
    pub minute: u32,
    pub second: u32,
}

// The first present year in which dates are read: 49 years before it is the first year of a date.
pub const FIRST_PRESENT_YEAR: u32 = 1632;

// The last one: 50 years after it is the last year of a date.
pub const LAST_PRESENT_YEAR: u32 = 9949;

// What a reader of dates gives, as C sees it.
impl From<Result<Date, Refusal>> for QzDate {
    ghost from_gives = { λ d read. read ≡ date_fields (verdict d) };

    fn from(d: Result<Date, Refusal>) -> QzDate {
        match d {
            Ok(d) => QzDate {
                seconds: d.seconds,
                year: d.fields.year,
                month: d.fields.month,
                day: d.fields.day,
                hour: d.fields.hour,
                minute: d.fields.minute,
                second: d.fields.second,
                ..QzDate::default()
            },
            Err(r) => QzDate {
                number: r.number(),
                place: r.place(),
                ..QzDate::default()
            },
        }
    }
}

// A date in the form of RFC 1123, of RFC 850 or of asctime. Two digits of a year mean the one from 49 years before the present year to 50
// years after it that ends in them (RFC 2616 19.3). A present year before QZ_FIRST_PRESENT_YEAR or after QZ_LAST_PRESENT_YEAR is
// QZ_OUT_OF_RANGE, before anything is read.
#[unsafe(no_mangle)]
pub extern "C" fn qz_date_read(s: &[u8], present_year: u32) -> QzDate
    ensures { result ≡ date_fields (reading present_year s.now) }
{
    QzDate::from(date::read(s, present_year))
}

// Writes the 29 bytes of the RFC 1123 form; the range is -12,212,553,600 to 253,402,300,799.
#[unsafe(no_mangle)]
pub extern "C" fn qz_date_write(seconds: i64, out: &mut [u8]) -> QzWritten
    ensures answers { result ≡ written_fields (date_writing seconds (length out.old)) }
    ensures writes { out.new ≡ date_output seconds out.old }
{
    QzWritten::from(date_writer::write(seconds, out))
}
