// The `Content-Range` value of one range written: RFC 2616 14.16.
#![tactic(auto)]

ghost use Rattle.std.specs.Prelude.{◌≡◌, ◌++◌, ◌≤◌, not, length, drop};
ghost use Rattle.octets.specs.Reading.{verdict};
ghost use Rattle.content_range_writer.specs.Writing.{InRange, out_of_range, content_range_text};
ghost use Rattle.content_range_writer.specs.Writing.{content_range_writing, content_range_output};

use numerals::Base;
use octets::{LENGTH_LIMIT, Refusal};

// The bytes of the unit and its blank.
const UNIT_LEN: usize = 6;

// Writes the range, as `bytes 0-499/1234`, at the front of `out`, and keeps the rest of `out`.
pub fn write(first: u64, last: u64, entity_length: u64, out: &mut [u8]) -> Result<usize, Refusal>
    ensures answers { verdict result ≡ content_range_writing first last entity_length (length out.old) }
    ensures writes { out.new ≡ content_range_output first last entity_length out.old }
{
    if !is_in_range(first, last, entity_length) {
        return Err(Refusal::OutOfRange);
    }
    let len = text_len(first, last, entity_length);
    if out.len() < len {
        return Err(Refusal::OutputTooShort);
    }
    put_text(first, last, entity_length, out);
    Ok(len)
}

fn is_in_range(first: u64, last: u64, entity_length: u64) -> bool
    ensures { result ≡ not (out_of_range first last entity_length) }
{
    first <= last && last < entity_length && entity_length <= LENGTH_LIMIT
}

fn text_len(first: u64, last: u64, entity_length: u64) -> usize
    requires { InRange first last entity_length }
    ensures { result ≡ length (content_range_text first last entity_length) }
{
    let first_digits = numerals::width(first, Base::Decimal);
    let last_digits = numerals::width(last, Base::Decimal);
    let length_digits = numerals::width(entity_length, Base::Decimal);
    UNIT_LEN + first_digits + 1 + last_digits + 1 + length_digits
}

fn put_text(first: u64, last: u64, entity_length: u64, out: &mut [u8])
    requires { length (content_range_text first last entity_length) ≤ length out.old }
    ensures { out.new
        ≡ content_range_text first last entity_length ++ drop (length (content_range_text first last entity_length)) out.old }
{
    let unit_end = text::put_bytes(b"bytes ", out, 0);
    let first_end = text::put_numeral(first, Base::Decimal, out, unit_end);
    let dash_end = text::put_bytes(b"-", out, first_end);
    let last_end = text::put_numeral(last, Base::Decimal, out, dash_end);
    let slash_end = text::put_bytes(b"/", out, last_end);
    text::put_numeral(entity_length, Base::Decimal, out, slash_end);
}
