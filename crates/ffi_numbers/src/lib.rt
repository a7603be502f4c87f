// Delta-seconds and qvalues for C and Rust. Nothing is decided here.
#![tactic(auto)]

ghost use Rattle.std.specs.Prelude.{◌≡◌, length};
ghost use Rattle.grammar.specs.helpers.Judge.{header};
ghost use Rattle.octets.specs.Reading.{verdict};
ghost use Rattle.delta.specs.Grammar.{rules as deltas};
ghost use Rattle.qvalue.specs.Grammar.{rules as qvalues};
ghost use Rattle.qvalue_writer.specs.Writing.{qvalue_writing, qvalue_output};
ghost use Rattle.ffi_numbers.specs.Fields.{seconds_fields, thousandths_fields};
ghost use Rattle.ffi.specs.Fields.{written_fields};

use delta::Seconds;
use ffi::QzWritten;
use octets::Refusal;

// Delta-seconds that were read.
#[repr(C)]
#[derive(Clone, Copy, Default)]
pub struct QzSeconds {
    pub number: u8,
    pub place: usize,
    // 2,147,483,648 where they were capped
    pub value: u32,
    // the number is above 2,147,483,647, and `value` stands for it
    pub capped: bool,
}

// A qvalue that was read, in thousandths.
#[repr(C)]
#[derive(Clone, Copy, Default)]
pub struct QzQvalue {
    pub number: u8,
    pub place: usize,
    pub value: u32,
}

// What a reader of delta-seconds gives, as C sees it.
impl From<Result<Seconds, Refusal>> for QzSeconds {
    ghost from_gives = { λ v read. read ≡ seconds_fields (verdict v) };

    fn from(v: Result<Seconds, Refusal>) -> QzSeconds {
        match v {
            Ok(v) => QzSeconds {
                value: v.value,
                capped: v.capped,
                ..QzSeconds::default()
            },
            Err(r) => QzSeconds {
                number: r.number(),
                place: r.place(),
                ..QzSeconds::default()
            },
        }
    }
}

// What a reader of qvalues gives, as C sees it.
impl From<Result<u16, Refusal>> for QzQvalue {
    ghost from_gives = { λ v read. read ≡ thousandths_fields (verdict v) };

    fn from(v: Result<u16, Refusal>) -> QzQvalue {
        match v {
            Ok(v) => QzQvalue {
                value: u32::from(v),
                ..QzQvalue::default()
            },
            Err(r) => QzQvalue {
                number: r.number(),
                place: r.place(),
                ..QzQvalue::default()
            },
        }
    }
}

// Delta-seconds; more than 2,147,483,647 are capped to 2,147,483,648.
#[unsafe(no_mangle)]
pub extern "C" fn qz_delta_read(s: &[u8]) -> QzSeconds
    ensures { result ≡ seconds_fields (header deltas s.now) }
{
    QzSeconds::from(delta::read(s))
}

// A qvalue in thousandths, 0 to 1000.
#[unsafe(no_mangle)]
pub extern "C" fn qz_qvalue_read(s: &[u8]) -> QzQvalue
    ensures { result ≡ thousandths_fields (header qvalues s.now) }
{
    QzQvalue::from(qvalue::read(s))
}

// Writes the shortest form of a qvalue given in thousandths.
#[unsafe(no_mangle)]
pub extern "C" fn qz_qvalue_write(thousandths: u16, out: &mut [u8]) -> QzWritten
    ensures answers { result ≡ written_fields (qvalue_writing thousandths (length out.old)) }
    ensures writes { out.new ≡ qvalue_output thousandths out.old }
{
    QzWritten::from(qvalue_writer::write(thousandths, out))
}
