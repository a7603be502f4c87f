// HTTP dates in the form of RFC 1123: RFC 2616 3.3.1.
#![tactic(auto)]

ghost use Rattle.std.specs.Prelude.{◌≡◌, ◌≤◌, ◌<◌, length, get_or};
ghost use Rattle.octets.specs.Reading.{verdict};
ghost use Rattle.date_writer.specs.Writing.{date_text, date_writing, date_output, tens, ones};

use calendar::Moment;
use date::{DAYS, MONTHS};
use octets::Refusal;

// The bytes of the form that is written.
const TEXT_LEN: usize = 29;

// Writes an instant at the front of `out`, in the form of RFC 1123, and keeps the rest of `out`.
pub fn write(seconds: i64, out: &mut [u8]) -> Result<usize, Refusal>
    ensures answers { verdict result ≡ date_writing seconds (length out.old) }
    ensures writes { out.new ≡ date_output seconds out.old }
{
    let Some(moment) = calendar::fields_at(seconds) else {
        return Err(Refusal::OutOfRange);
    };
    if out.len() < TEXT_LEN {
        return Err(Refusal::OutputTooShort);
    }
    text::put_bytes(&text_of(moment), out, 0);
    Ok(TEXT_LEN)
}

// `Sun, 06 Nov 1994 08:49:37 GMT`
fn text_of(moment: Moment) -> [u8; 29]
    requires { (moment.weekday < 7) × (1 ≤ moment.fields.month) × (moment.fields.month ≤ 12) }
    ensures { result ≡ date_text moment.weekday moment.fields }
{
    let fields = moment.fields;
    let day_place = 3 * moment.weekday as usize;
    let month_place = 3 * (fields.month as usize - 1);
    let century = fields.year / 100;
    [
        letter(&DAYS, day_place),
        letter(&DAYS, day_place + 1),
        letter(&DAYS, day_place + 2),
        b',',
        b' ',
        tens_digit(fields.day),
        ones_digit(fields.day),
        b' ',
        letter(&MONTHS, month_place),
        letter(&MONTHS, month_place + 1),
        letter(&MONTHS, month_place + 2),
        b' ',
        tens_digit(century),
        ones_digit(century),
        tens_digit(fields.year),
        ones_digit(fields.year),
        b' ',
        tens_digit(fields.hour),
        ones_digit(fields.hour),
        b':',
        tens_digit(fields.minute),
        ones_digit(fields.minute),
        b':',
        tens_digit(fields.second),
        ones_digit(fields.second),
        b' ',
        b'G',
        b'M',
        b'T',
    ]
}

fn letter(names: &[u8], place: usize) -> u8
    requires { place < length names.now }
    ensures { result ≡ get_or names.now place 0 }
{
    names[place]
}

fn tens_digit(n: u32) -> u8
    ensures { result ≡ tens n }
{
    b'0' + (n / 10 % 10) as u8
}

fn ones_digit(n: u32) -> u8
    ensures { result ≡ ones n }
{
    b'0' + (n % 10) as u8
}
