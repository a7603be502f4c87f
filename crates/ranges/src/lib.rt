// Byte ranges: RFC 2616 14.35.1, read and resolved against the length of an entity.
#![tactic(auto)]

ghost use Rattle.std.specs.Prelude.{◌≡◌, None};
ghost use Rattle.ranges.specs.Meaning.{begin, end};
ghost use Rattle.ranges.specs.Reading.{Answered};
ghost use Rattle.ranges.specs.helpers.Scan.{NumberAt, DigitsAt, Begun, NextAt, ElementRead, SeventeenthAt};

use octets::{LENGTH_LIMIT, Refusal};
use scans::Decimal;

// How many elements a set may have.
pub const ELEMENT_LIMIT: usize = 16;

// The bytes of `bytes=`.
const UNIT_LEN: usize = 6;

// The positions of the first and the last byte.
#[derive(Clone, Copy, Debug, PartialEq, Eq)]
pub struct Range {
    pub first: u64,
    pub last: u64,
}

// The ranges of a set, in the order sent: the first `count` entries. The unused ones are zero. A fixed table: the library has no heap.
#[derive(Clone, Copy, Debug, PartialEq, Eq)]
pub struct Ranges {
    pub count: usize,
    pub entries: [Range; ELEMENT_LIMIT],
}

const UNUSED: Range = Range { first: 0, last: 0 };

// An element of a set: `first-last`, `first-`, `-size`.
#[derive(Clone, Copy)]
enum Element {
    Closed { first: u64, last: u64 },
    Open { first: u64 },
    Suffix { size: u64 },
}

impl Element {
    // Where its range begins in an entity of so many bytes.
    fn begin(self, entity_length: u64) -> u64
        ensures { result ≡ begin entity_length self }
    {
        match self {
            Element::Closed { first, .. } | Element::Open { first } => first,
            Element::Suffix { size } => entity_length.saturating_sub(size),
        }
    }

    // The position behind the end of its range.
    fn end(self, entity_length: u64) -> u64
        ensures { result ≡ end entity_length self }
    {
        match self {
            Element::Closed { last, .. } if last < entity_length => last + 1,
            _ => entity_length,
        }
    }
}

// An element that was read, and the place behind it.
#[derive(Clone, Copy)]
struct Step {
    element: Element,
    end: usize,
}

// A number, capped, and the place behind its digits.
#[derive(Clone, Copy)]
struct Number {
    value: u64,
    end: usize,
}

// `bytes=`, then elements with blanks around their commas, resolved against an entity of so many bytes. None: the set is well-formed, and
// no range of it is left.
pub fn read(s: &[u8], entity_length: u64) -> Result<Option<Ranges>, Refusal>
    ensures { Answered entity_length s.now result }
{
    if entity_length > LENGTH_LIMIT {
        return Err(Refusal::OutOfRange);
    }
    octets::check_length(s)?;
    let unit = scans::word_at(b"bytes=", s, 0);
    if unit < UNIT_LEN {
        return Err(Refusal::Malformed(unit));
    }
    read_elements(s, entity_length)
}

// Reads on from the place behind `bytes=`.
fn read_elements(s: &[u8], entity_length: u64) -> Result<Option<Ranges>, Refusal>
    requires { Begun entity_length s.now }
    ensures { Answered entity_length s.now result }
{
    let mut entries = [UNUSED; ELEMENT_LIMIT];
    let mut count = 0;
    let mut elements = 0;
    // a cursor: each element has its own length
    let mut at = UNIT_LEN;
    while at < s.len() {
        let Step { element, end } = read_next(s, elements, at)?;
        let from = element.begin(entity_length);
        let to = element.end(entity_length);
        if from < to {
            let last = to - 1;
            entries[count] = Range { first: from, last };
            count += 1;
        }
        elements += 1;
        at = end;
    }
    if elements == 0 {
        return Err(Refusal::Malformed(at));
    }
    if count == 0 {
        return Ok(None);
    }
    Ok(Some(Ranges { count, entries }))
}

// Reads the next element from `at`, where the first one begins, or the blanks and the comma that join it to the `elements` before it.
fn read_next(s: &[u8], elements: usize, at: usize) -> Result<Step, Refusal>
    ensures { NextAt s.now elements at result }
{
    if elements == 0 {
        return read_element(s, at);
    }
    let comma = scans::class_end(octets::BLANK, s, at);
    if comma >= s.len() || s[comma] != b',' {
        return Err(Refusal::Malformed(comma));
    }
    let start = scans::class_end(octets::BLANK, s, comma + 1);
    if elements == ELEMENT_LIMIT {
        return Err(seventeenth(s, start));
    }
    read_element(s, start)
}

// Why a seventeenth element is refused where it would begin: it is one too many if its first byte could begin one.
fn seventeenth(s: &[u8], start: usize) -> Refusal
    ensures { SeventeenthAt s.now start result }
{
    if start < s.len() && (s[start] == b'-' || octets::is_digit(s[start])) {
        return Refusal::TooManyParameters(start);
    }
    Refusal::Malformed(start)
}

// Reads the element that has to begin at `start`.
fn read_element(s: &[u8], start: usize) -> Result<Step, Refusal>
    ensures { ElementRead s.now start result }
{
    match read_number(s, start) {
        Some(Number { value, end }) => read_last(s, start, value, end),
        None => read_suffix(s, start),
    }
}

// Reads on from the place behind the digits of a first position, where its minus has to stand. For the contract: they begin at `start`.
fn read_last(s: &[u8], start: usize, first: u64, minus: usize) -> Result<Step, Refusal>
    requires { DigitsAt s.now start first minus }
    ensures { ElementRead s.now start result }
{
    if minus >= s.len() || s[minus] != b'-' {
        return Err(Refusal::Malformed(minus));
    }
    match read_number(s, minus + 1) {
        None => Ok(Step {
            element: Element::Open { first },
            end: minus + 1,
        }),
        Some(Number { value, end }) if value < first => Err(Refusal::Malformed(end - 1)),
        Some(Number { value, end }) => Ok(Step {
            element: Element::Closed { first, last: value },
            end,
        }),
    }
}

// Reads the suffix that has to begin at `start`, where no digit stands.
fn read_suffix(s: &[u8], start: usize) -> Result<Step, Refusal>
    requires { NumberAt s.now start None }
    ensures { ElementRead s.now start result }
{
    if start >= s.len() || s[start] != b'-' {
        return Err(Refusal::Malformed(start));
    }
    let Some(Number { value, end }) = read_number(s, start + 1) else {
        return Err(Refusal::Malformed(start + 1));
    };
    Ok(Step {
        element: Element::Suffix { size: value },
        end,
    })
}

// The number that stands at `from`; one above the largest length is capped to it.
fn read_number(s: &[u8], from: usize) -> Option<Number>
    ensures { NumberAt s.now from result }
{
    match scans::read_decimal(s, from, LENGTH_LIMIT) {
        Decimal::Number { value, end } => Some(Number { value, end }),
        Decimal::Above { end, .. } => Some(Number {
            value: LENGTH_LIMIT,
            end,
        }),
        Decimal::Missing => None,
    }
}
