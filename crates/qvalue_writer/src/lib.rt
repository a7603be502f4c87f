// Quality values written: RFC 2616 3.9.
#![tactic(auto)]

ghost use Rattle.std.specs.Prelude.{◌≡◌, ◌++◌, ◌≤◌, length, drop};
ghost use Rattle.octets.specs.Reading.{verdict};
ghost use Rattle.qvalue_writer.specs.Writing.{last_digit, qvalue_text, qvalue_writing, qvalue_output};

use octets::Refusal;

// The largest qvalue, in thousandths.
const ONE: u16 = 1000;

// Writes the shortest form at the front of `out`, and keeps the rest of `out`.
pub fn write(thousandths: u16, out: &mut [u8]) -> Result<usize, Refusal>
    ensures answers { verdict result ≡ qvalue_writing thousandths (length out.old) }
    ensures writes { out.new ≡ qvalue_output thousandths out.old }
{
    if thousandths > ONE {
        return Err(Refusal::OutOfRange);
    }
    let len = text_len(thousandths);
    if out.len() < len {
        return Err(Refusal::OutputTooShort);
    }
    put_text(thousandths, len, out);
    Ok(len)
}

fn text_len(q: u16) -> usize
    ensures { result ≡ length (qvalue_text q) }
{
    if q % 1000 == 0 {
        1
    } else if q % 100 == 0 {
        3
    } else if q % 10 == 0 {
        4
    } else {
        5
    }
}

// Puts the first `len` bytes of the form with three digits.
fn put_text(q: u16, len: usize, out: &mut [u8])
    requires { (len ≡ length (qvalue_text q)) × (len ≤ length out.old) }
    ensures { out.new ≡ qvalue_text q ++ drop (length (qvalue_text q)) out.old }
{
    let full = [
        last_digit(q / 1000),
        b'.',
        last_digit(q / 100),
        last_digit(q / 10),
        last_digit(q),
    ];
    text::put_bytes(&full[..len], out, 0);
}

fn last_digit(n: u16) -> u8
    ensures { result ≡ last_digit n }
{
    b'0' + (n % 10) as u8
}
