// Versions for C and Rust. Nothing is decided here.
#![tactic(auto)]

ghost use Rattle.std.specs.Prelude.{◌≡◌, length};
ghost use Rattle.grammar.specs.helpers.Judge.{header};
ghost use Rattle.grammar.specs.Comparing.{compare as comparing, refused_at};
ghost use Rattle.octets.specs.Comparing.{comparison};
ghost use Rattle.octets.specs.Reading.{number_of, place_of, verdict};
ghost use Rattle.version.specs.Grammar.{rules as versions};
ghost use Rattle.version.specs.Reading.{precedence};
ghost use Rattle.version.specs.Writing.{version_writing, version_output};
ghost use Rattle.ffi_versions.specs.Fields.{version_fields, order_number, order_fields};
ghost use Rattle.ffi.specs.Fields.{written_fields};

use ffi::QzWritten;
use octets::{PairRefusal, Refusal};
use std::cmp::Ordering;
use version::Version;

// QzOrder.order where number is 0.
pub const LESS: u8 = 0;

pub const EQUAL: u8 = 1;

pub const GREATER: u8 = 2;

// A version that was read.
#[repr(C)]
#[derive(Clone, Copy, Default)]
pub struct QzVersion {
    pub number: u8,
    pub place: usize,
    pub major: u32,
    pub minor: u32,
}

// How two versions compare.
#[repr(C)]
#[derive(Clone, Copy, Default)]
pub struct QzOrder {
    pub number: u8,
    pub place: usize,
    // 1 or 2: the input that was refused
    pub which: u8,
    // QZ_LESS, QZ_EQUAL or QZ_GREATER
    pub order: u8,
}

// What a reader of versions gives, as C sees it.
impl From<Result<Version, Refusal>> for QzVersion {
    ghost from_gives = { λ v read. read ≡ version_fields (verdict v) };

    fn from(v: Result<Version, Refusal>) -> QzVersion {
        match v {
            Ok(v) => QzVersion {
                major: v.major,
                minor: v.minor,
                ..QzVersion::default()
            },
            Err(r) => QzVersion {
                number: r.number(),
                place: r.place(),
                ..QzVersion::default()
            },
        }
    }
}

// A comparison of versions, as C sees it.
impl From<Result<Ordering, PairRefusal>> for QzOrder {
    ghost from_gives = { λ c order. order ≡ order_fields (comparison c) };

    fn from(c: Result<Ordering, PairRefusal>) -> QzOrder {
        match c {
            Ok(order) => QzOrder {
                order: order_code(order),
                ..QzOrder::default()
            },
            Err(PairRefusal::First(r)) => one_refused(1, r),
            Err(PairRefusal::Second(r)) => one_refused(2, r),
        }
    }
}

// The first or the second input was refused.
fn one_refused(which: u8, r: Refusal) -> QzOrder
    ensures { result ≡ order_fields (refused_at which (number_of r) (place_of r)) }
{
    QzOrder {
        number: r.number(),
        place: r.place(),
        which,
        ..QzOrder::default()
    }
}

fn order_code(order: Ordering) -> u8
    ensures { result ≡ order_number order }
{
    match order {
        Ordering::Less => LESS,
        Ordering::Equal => EQUAL,
        Ordering::Greater => GREATER,
    }
}

// A version: `HTTP/` in any case, digits, `.`, digits; each number is at most 65,535.
#[unsafe(no_mangle)]
pub extern "C" fn qz_version_read(s: &[u8]) -> QzVersion
    ensures { result ≡ version_fields (header versions s.now) }
{
    QzVersion::from(Version::read(s))
}

// Reads first `a`, then `b`, and orders them by major, then minor, as numbers.
#[unsafe(no_mangle)]
pub extern "C" fn qz_version_compare(a: &[u8], b: &[u8]) -> QzOrder
    ensures { result ≡ order_fields (comparing precedence (header versions a.now) (header versions b.now)) }
{
    QzOrder::from(version_order::compare(a, b))
}

// Writes a version in capitals without leading zeros.
#[unsafe(no_mangle)]
pub extern "C" fn qz_version_write(major: u32, minor: u32, out: &mut [u8]) -> QzWritten
    ensures answers { result ≡ written_fields (version_writing (record { major = major; minor = minor }) (length out.old)) }
    ensures writes { out.new ≡ version_output (record { major = major; minor = minor }) out.old }
{
    let v = Version { major, minor };
    QzWritten::from(v.write(out))
}
