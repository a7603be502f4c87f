// The basic rules of RFC 2616 2.2 as document 01 states them: classes of bytes, letter case.
#![tactic(auto)]

ghost use Rattle.std.specs.Prelude.{◌≡◌, ◌/◌, ◌<◌, ◌≤◌, true, false, length, if◌then◌else◌, slice_index, MatchResult};
ghost use Rattle.grammar.specs.Grammar.{lower};
ghost use Rattle.grammar.specs.Reading.{value_limit};
ghost use Rattle.octets.specs.Bytes.{digit?, token?, content?, text?, escaped?, hex?, hex_value};
ghost use Rattle.octets.specs.helpers.Bits.{member};
ghost use Rattle.octets.specs.Case.{alike};
ghost use Rattle.octets.specs.Same.{same?};
ghost use Rattle.octets.specs.Reading.{number_of, place_of};

// The longest header value.
pub const VALUE_LIMIT: usize = 8192;

// The largest length of an entity, 2^63 - 1; in byte ranges it stands for larger numbers.
pub const LENGTH_LIMIT: u64 = 9223372036854775807;

// Document 01's refusal numbers. Malformed; place: the length of the longest beginning that some continuation completes; of a last byte
// position below its first, its last digit.
pub const MALFORMED: u8 = 1;

// Number above its limit; place: the digit that passes it.
pub const NUMBER_ABOVE_LIMIT: u8 = 2;

// No such date or time; place: 0.
pub const NO_SUCH_DATE: u8 = 3;

// The day name disagrees with the date; place: 0.
pub const WRONG_DAY_NAME: u8 = 4;

// Chunk line above 1,024 bytes; place: its byte 1,025.
pub const LINE_TOO_LONG: u8 = 5;

// Trailer above 8,192 bytes; place: its byte 8,193.
pub const TRAILER_TOO_LONG: u8 = 6;

// Body larger than the room (reader; place: the size digit), or above 1,073,741,824 bytes (writer; place: 0).
pub const BODY_TOO_LARGE: u8 = 7;

// Lent output too short; place: 0.
pub const OUTPUT_TOO_SHORT: u8 = 8;

// Argument outside its range; place: 0.
pub const OUT_OF_RANGE: u8 = 9;

// More than 16 parameters, or byte ranges; place: the first byte of the 17th.
pub const TOO_MANY_PARAMETERS: u8 = 10;

// Attribute repeated, letter case ignored; place: the `=` after the second.
pub const REPEATED_ATTRIBUTE: u8 = 11;

// Comment nested deeper than 8; place: the ninth open parenthesis.
pub const COMMENT_TOO_DEEP: u8 = 12;

// Header value, or normal form of a URL, above 8,192 bytes; place: 8,192.
pub const VALUE_TOO_LONG: u8 = 13;

// Framed body above 1,099,511,627,776 bytes (reader of pieces); place: the byte after that.
pub const FRAMED_TOO_LONG: u8 = 14;

// Trailer field Transfer-Encoding, Content-Length or Trailer, letter case ignored; place: its colon.
pub const FORBIDDEN_FIELD: u8 = 15;

// Why an input was refused, and the place that document 01 names for it, counted from 0; a refusal without one has a fixed place.
#[derive(Clone, Copy, Debug, PartialEq, Eq)]
pub enum Refusal {
    Malformed(usize),
    NumberAboveLimit(usize),
    NoSuchDate,
    WrongDayName,
    LineTooLong(usize),
    TrailerTooLong(usize),
    BodyTooLarge(usize),
    OutputTooShort,
    OutOfRange,
    TooManyParameters(usize),
    RepeatedAttribute(usize),
    CommentTooDeep(usize),
    ValueTooLong,
    FramedTooLong(usize),
    ForbiddenField(usize),
}

impl Refusal {
    // Document 01's number.
    pub fn number(self) -> u8
        ensures { result ≡ number_of self }
    {
        match self {
            Refusal::Malformed(_) => MALFORMED,
            Refusal::NumberAboveLimit(_) => NUMBER_ABOVE_LIMIT,
            Refusal::NoSuchDate => NO_SUCH_DATE,
            Refusal::WrongDayName => WRONG_DAY_NAME,
            Refusal::LineTooLong(_) => LINE_TOO_LONG,
            Refusal::TrailerTooLong(_) => TRAILER_TOO_LONG,
            Refusal::BodyTooLarge(_) => BODY_TOO_LARGE,
            Refusal::OutputTooShort => OUTPUT_TOO_SHORT,
            Refusal::OutOfRange => OUT_OF_RANGE,
            Refusal::TooManyParameters(_) => TOO_MANY_PARAMETERS,
            Refusal::RepeatedAttribute(_) => REPEATED_ATTRIBUTE,
            Refusal::CommentTooDeep(_) => COMMENT_TOO_DEEP,
            Refusal::ValueTooLong => VALUE_TOO_LONG,
            Refusal::FramedTooLong(_) => FRAMED_TOO_LONG,
            Refusal::ForbiddenField(_) => FORBIDDEN_FIELD,
        }
    }

    // The place, counted from 0.
    pub fn place(self) -> usize
        ensures { result ≡ place_of self }
    {
        match self {
            Refusal::Malformed(place)
            | Refusal::NumberAboveLimit(place)
            | Refusal::LineTooLong(place)
            | Refusal::TrailerTooLong(place)
            | Refusal::BodyTooLarge(place)
            | Refusal::TooManyParameters(place)
            | Refusal::RepeatedAttribute(place)
            | Refusal::CommentTooDeep(place)
            | Refusal::FramedTooLong(place)
            | Refusal::ForbiddenField(place) => place,
            Refusal::NoSuchDate
            | Refusal::WrongDayName
            | Refusal::OutputTooShort
            | Refusal::OutOfRange => 0,
            Refusal::ValueTooLong => VALUE_LIMIT,
        }
    }
}

// Which of two values given as bytes was refused, and why.
#[derive(Clone, Copy, Debug, PartialEq, Eq)]
pub enum PairRefusal {
    First(Refusal),
    Second(Refusal),
}

// A header value that is too long is refused before it is read.
pub fn check_length(s: &[u8]) -> Result<(), Refusal>
    ensures { MatchResult result (λ _. length s.now ≤ value_limit) (λ e. (value_limit < length s.now) × (e ≡ Refusal.ValueTooLong)) }
{
    if s.len() > VALUE_LIMIT {
        return Err(Refusal::ValueTooLong);
    }
    Ok(())
}

// A class as bits: byte b is bit b % 64 of word b / 64.
pub type Class = [u64; 4];

// 0 to 9.
pub const DIGIT: Class = [0x3ff000000000000, 0, 0, 0];

// A to Z, a to z.
pub const LETTER: Class = [0, 0x7fffffe07fffffe, 0, 0];

// SP, HT.
pub const BLANK: Class = [0x100000200, 0, 0, 0];

// The bytes of a token: 33 to 126 without `( ) < > @ , ; : \ " / [ ] ? = { }`.
pub const TOKEN: Class = [0x3ff6cfa00000000, 0x57ffffffc7fffffe, 0, 0];

// The bytes of a trailer line's value: HT, 32 to 126, 128 to 255.
const CONTENT: Class = [
    0xffffffff00000200,
    0x7fffffffffffffff,
    0xffffffffffffffff,
    0xffffffffffffffff,
];

// The bytes of a quoted string that stand for themselves: HT, 32 to 126 without `"` and `\`, 128 to 255.
pub const TEXT: Class = [
    0xfffffffb00000200,
    0x7fffffffefffffff,
    0xffffffffffffffff,
    0xffffffffffffffff,
];

// The bytes that may follow the `\` of a pair: HT, 32 to 126.
const ESCAPED: Class = [0xffffffff00000200, 0x7fffffffffffffff, 0, 0];

// Is the byte in the class?
pub fn in_class(class: Class, b: u8) -> bool
    ensures { result ≡ member class b }
{
    (word(class, b) >> (b % 64)) % 2 == 1
}

// The word that holds the bit of a byte. Chosen, not indexed: the words of a constant class then stay in registers, where an index has
// them stored for each byte. A media type with a parameter is read in 0.8 of the time.
fn word(class: Class, b: u8) -> u64
    ensures { result ≡ slice_index class (b / 64) }
{
    if b < 64 {
        class[0]
    } else if b < 128 {
        class[1]
    } else if b < 192 {
        class[2]
    } else {
        class[3]
    }
}

// Compared, not looked up, for speed: every number is read through it.
pub fn is_digit(b: u8) -> bool
    ensures { result ≡ digit? b }
{
    b >= b'0' && b <= b'9'
}

// A byte of a token.
pub fn is_token(b: u8) -> bool
    ensures { result ≡ token? b }
{
    in_class(TOKEN, b)
}

// A byte of a trailer line's value.
pub fn is_content(b: u8) -> bool
    ensures { result ≡ content? b }
{
    in_class(CONTENT, b)
}

// A byte of a quoted string that stands for itself.
pub fn is_text(b: u8) -> bool
    ensures { result ≡ text? b }
{
    in_class(TEXT, b)
}

// A byte that may follow the backslash of a pair.
pub fn is_escaped(b: u8) -> bool
    ensures { result ≡ escaped? b }
{
    in_class(ESCAPED, b)
}

// The value of a hex digit, and 16 of any other byte. By two differences, not by spans: a loop over a line of digits reads 16 at a time,
// and `bench` takes 1.2 times as long without.
pub fn hex_value(b: u8) -> u8
    ensures { result ≡ (if hex? b then hex_value b else 16) }
{
    let digit = b.wrapping_sub(b'0');
    let letter = (b | 32).wrapping_sub(b'a');
    if digit < 10 {
        digit
    } else if letter < 6 {
        letter + 10
    } else {
        16
    }
}

// How many letters there are in one case.
const LETTERS: u8 = 26;

// A capital letter as the small one; any other byte as it is. One comparison, by a difference that wraps: comparisons of parts then take
// 16 bytes at a time.
pub fn lower_case(b: u8) -> u8
    ensures { result ≡ lower b }
{
    if b.wrapping_sub(b'A') < LETTERS {
        b + 32
    } else {
        b
    }
}

// Are two parts the same, letter case ignored?
pub fn same_ignoring_case(a: &[u8], b: &[u8]) -> bool
    ensures { result ≡ alike a.now b.now }
{
    if a.len() != b.len() {
        return false;
    }
    // names that share a long beginning differ at their ends: 8 KB of such parameters are read in 0.2 of the time
    if ends_differ(a, b) {
        return false;
    }
    // without an early exit, so that 16 bytes are compared at a time
    let mut equal = true;
    for (i, x) in a.iter().enumerate() {
        if lower_case(*x) != lower_case(b[i]) {
            equal = false;
        }
    }
    equal
}

// Do the last bytes of two parts of one length differ, letter case ignored?
fn ends_differ(a: &[u8], b: &[u8]) -> bool
    requires { length a.now ≡ length b.now }
    ensures { result ≡ true → alike a.now b.now ≡ false }
{
    match (a.last(), b.last()) {
        (Some(x), Some(y)) => lower_case(*x) != lower_case(*y),
        _ => false,
    }
}

// Are two parts the same, byte for byte?
pub fn same(a: &[u8], b: &[u8]) -> bool
    ensures { result ≡ same? a.now b.now }
{
    a == b
}
