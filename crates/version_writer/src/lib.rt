// HTTP versions written from their two numbers: RFC 2616 3.1.
#![tactic(auto)]

ghost use Rattle.std.specs.Prelude.{◌≡◌, false, ◌++◌, ◌≤◌, length, drop};
ghost use Rattle.octets.specs.Reading.{verdict};
ghost use Rattle.version_writer.specs.Writing.{numbers_text, numbers_too_large, numbers_writing, numbers_output};

use numerals::Base;
use octets::Refusal;

// The largest number in a version.
const NUMBER_LIMIT: u32 = 65535;

// The bytes of the name and its slash.
const NAME_LEN: usize = 5;

// Writes the version at the front of `out`, in capitals and without leading zeros, and keeps the rest of `out`.
pub fn write(major: u32, minor: u32, out: &mut [u8]) -> Result<usize, Refusal>
    ensures answers { verdict result ≡ numbers_writing major minor (length out.old) }
    ensures writes { out.new ≡ numbers_output major minor out.old }
{
    if major > NUMBER_LIMIT || minor > NUMBER_LIMIT {
        return Err(Refusal::OutOfRange);
    }
    let len = text_len(major, minor);
    if out.len() < len {
        return Err(Refusal::OutputTooShort);
    }
    put_text(major, minor, out);
    Ok(len)
}

fn text_len(major: u32, minor: u32) -> usize
    requires { numbers_too_large major minor ≡ false }
    ensures { result ≡ length (numbers_text major minor) }
{
    let major_len = numerals::width(major as u64, Base::Decimal);
    let minor_len = numerals::width(minor as u64, Base::Decimal);
    NAME_LEN + major_len + 1 + minor_len
}

fn put_text(major: u32, minor: u32, out: &mut [u8])
    requires { length (numbers_text major minor) ≤ length out.old }
    ensures { out.new ≡ numbers_text major minor ++ drop (length (numbers_text major minor)) out.old }
{
    let name_end = text::put_bytes(b"HTTP/", out, 0);
    let major_end = text::put_numeral(major as u64, Base::Decimal, out, name_end);
    let point_end = text::put_bytes(b".", out, major_end);
    text::put_numeral(minor as u64, Base::Decimal, out, point_end);
}
