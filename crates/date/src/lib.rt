// HTTP dates: RFC 2616 3.3.1, and 19.3 for years of two digits.
#![tactic(auto)]

ghost use Rattle.std.specs.Prelude.{◌≡◌, ◌+◌, ◌-◌, ◌≤◌, ◌<◌, length, drop};
ghost use Rattle.grammar.specs.helpers.Judge.{header};
ghost use Rattle.grammar.specs.helpers.Scans.{slice};
ghost use Rattle.octets.specs.Numbers.{number};
ghost use Rattle.date.specs.Years.{PresentYear, full_year};
ghost use Rattle.date.specs.Grammar.{rfc1123, asctime, rules};
ghost use Rattle.octets.specs.Reading.{verdict};
ghost use Rattle.date.specs.Reading.{reading};
ghost use Rattle.date.specs.Names.{first_name};
ghost use Rattle.date.specs.helpers.Scan.{Goes, AfterDay, AtRfc850, Ending, YearInside, year_from};
ghost use Rattle.date.specs.helpers.Scan.{rfc850_head, numbered, month_then, judged};
ghost use Rattle.octets.specs.helpers.Shapes.{stands_for, fitting};
ghost use Rattle.date.specs.helpers.Shapes.{longest};

use calendar::Fields;
use octets::Refusal;

// A date and a time of day, and the seconds since 1970-01-01 00:00:00.
#[derive(Clone, Copy, Debug, PartialEq, Eq)]
pub struct Date {
    pub fields: Fields,
    pub seconds: i64,
}

// Where the digits of a year begin: two, which mean a year by the present one, or four.
#[derive(Clone, Copy)]
enum YearPlace {
    Two(usize),
    Four(usize),
}

// Where the parts of a form stand: the month, the year, the day, the time.
#[derive(Clone, Copy)]
struct Places {
    month: usize,
    year: YearPlace,
    day: usize,
    time: usize,
}

// A value that begins with the name of a day, and the present year under which it is read.
#[derive(Clone, Copy)]
struct Named<'a> {
    text: &'a [u8],
    day: usize,
    present_year: u32,
}

pub const DAYS: [u8; 21] = *b"MonTueWedThuFriSatSun";

pub const MONTHS: [u8; 36] = *b"JanFebMarAprMayJunJulAugSepOctNovDec";

// The present years under which dates are read: the years from Y-49 to Y+50 are then years of a date, 1583 to 9999.
pub const FIRST_PRESENT_YEAR: u32 = 1632;

pub const LAST_PRESENT_YEAR: u32 = 9949;

// Reads a date of any of the three forms. The present year says which century two digits of a year are in.
pub fn read(s: &[u8], present_year: u32) -> Result<Date, Refusal>
    ensures { verdict result ≡ reading present_year s.now }
{
    if !(FIRST_PRESENT_YEAR..=LAST_PRESENT_YEAR).contains(&present_year) {
        return Err(Refusal::OutOfRange);
    }
    octets::check_length(s)?;
    let Some(number) = first_name(&DAYS, s, 0) else {
        return Err(Refusal::Malformed(longest_at(&DAYS, s, 0)));
    };
    let named = Named {
        text: s,
        day: number - 1,
        present_year,
    };
    named.read_form()
}

impl<'a> Named<'a> {
    // Behind the short name of a day.
    fn read_form(self) -> Result<Date, Refusal>
        requires { AfterDay self.present_year self.text.now self.day }
        ensures { verdict result ≡ header (rules self.entry.present_year) self.entry.text.now }
    {
        match self.text.get(3) {
            Some(b',') => self.read_rfc1123(),
            Some(b' ') => self.read_asctime(),
            _ => self.read_rfc850(),
        }
    }

    // `, 06 Nov 1994 08:49:37 GMT`
    fn read_rfc1123(self) -> Result<Date, Refusal>
        requires { Goes self.present_year rfc1123 self.text.now self.day }
        ensures { verdict result ≡ header (rules self.entry.present_year) self.entry.text.now }
    {
        let fits = fitting_at(b", 00 ", self.text, 3);
        if fits < 5 {
            return Err(Refusal::Malformed(3 + fits));
        }
        let places = Places {
            month: 8,
            year: YearPlace::Four(12),
            day: 5,
            time: 17,
        };
        self.read_tail(b" 0000 00:00:00 GMT", places)
    }

    // `day, 06-Nov-94 08:49:37 GMT`
    fn read_rfc850(self) -> Result<Date, Refusal>
        requires { AtRfc850 self.present_year self.text.now self.day }
        ensures { verdict result ≡ header (rules self.entry.present_year) self.entry.text.now }
    {
        let head = rfc850_head(self.day);
        let fits = fitting_at(head, self.text, 3);
        let at = 3 + fits;
        if fits < head.len() {
            return Err(Refusal::Malformed(at));
        }
        let places = Places {
            month: at,
            year: YearPlace::Two(at + 4),
            day: at - 3,
            time: at + 7,
        };
        self.read_tail(b"-00 00:00:00 GMT", places)
    }

    // ` Nov  6 08:49:37 1994`
    fn read_asctime(self) -> Result<Date, Refusal>
        requires { Goes self.present_year asctime self.text.now self.day }
        ensures { verdict result ≡ header (rules self.entry.present_year) self.entry.text.now }
    {
        let fits = fitting_at(b" ", self.text, 3);
        if fits < 1 {
            return Err(Refusal::Malformed(3));
        }
        let places = Places {
            month: 4,
            year: YearPlace::Four(20),
            day: 8,
            time: 11,
        };
        match self.text.get(8) {
            Some(b' ') => self.read_tail(b"  0 00:00:00 0000", places),
            _ => self.read_tail(b" 00 00:00:00 0000", places),
        }
    }

    // The month, what follows it, and the end. A blank before the day counts as 0.
    fn read_tail(self, tail: &[u8], places: Places) -> Result<Date, Refusal>
        requires { Ending self.present_year self.text.now self.day tail.now places }
        ensures { verdict result ≡ header (rules self.entry.present_year) self.entry.text.now }
    {
        let s = self.text;
        let month = month_then(tail, s, places.month).map_err(Refusal::Malformed)?;
        let fields = Fields {
            year: year_at(s, places.year, self.present_year),
            month,
            day: two_digits(s, places.day),
            hour: two_digits(s, places.time),
            minute: two_digits(s, places.time + 3),
            second: two_digits(s, places.time + 6),
        };
        judge(self.day, fields)
    }
}

// The form of RFC 850 between the short name of a day and the month.
fn rfc850_head(day: usize) -> &'static [u8]
    ensures { result.now ≡ rfc850_head day }
{
    match day {
        1 => b"sday, 00-",
        2 => b"nesday, 00-",
        3 => b"rsday, 00-",
        5 => b"urday, 00-",
        _ => b"day, 00-",
    }
}

// A well-formed date: no such date or time, a day name that disagrees with it, or the date.
fn judge(named: usize, fields: Fields) -> Result<Date, Refusal>
    ensures { verdict result ≡ judged named fields }
{
    let Some(instant) = calendar::locate(fields) else {
        return Err(Refusal::NoSuchDate);
    };
    if instant.weekday as usize != named {
        return Err(Refusal::WrongDayName);
    }
    Ok(Date {
        fields,
        seconds: instant.seconds,
    })
}

// The number of the month at the place `at`, with a text of that shape behind it and the end, or the place where that stops.
fn month_then(shape: &[u8], s: &[u8], at: usize) -> Result<u32, usize>
    requires { at + length shape.now < 8192 }
    ensures { result ≡ month_then shape.now s.now at }
{
    let Some(month) = first_name(&MONTHS, s, at) else {
        return Err(at + longest_at(&MONTHS, s, at));
    };
    let fits = fitting_at(shape, s, at + 3);
    let end = at + 3 + fits;
    if fits < shape.len() || end < s.len() {
        return Err(end);
    }
    Ok(month as u32)
}

// The number of the first name in a table that agrees with the three bytes at `at`, counted from 1.
// Document 01 asks for this form: a labelled search whose outer loop yields the number by `break`.
fn first_name(names: &[u8], s: &[u8], at: usize) -> Option<usize>
    ensures { result ≡ numbered (first_name 1 names.now (drop at s.now)) }
{
    if at > s.len() || s.len() - at < 3 {
        return None;
    }
    let count = names.len() / 3;
    let mut k = 0;
    let number = 'names: loop {
        if k >= count {
            break 'names None;
        }
        for j in 0..3 {
            if s[at + j] != names[3 * k + j] {
                k += 1;
                continue 'names;
            }
        }
        break 'names Some(k + 1);
    };
    number
}

// The most bytes at `at` that are of a name in the table.
fn longest_at(names: &[u8], s: &[u8], at: usize) -> usize
    ensures { result ≡ longest names.now (drop at s.now) }
{
    let mut best = 0;
    for name in names.chunks_exact(3) {
        best = best.max(fitting_at(name, s, at));
    }
    best
}

// How many bytes at `at` are of the shape.
fn fitting_at(shape: &[u8], s: &[u8], at: usize) -> usize
    ensures { result ≡ fitting shape.now (drop at s.now) }
{
    let text = s.get(at..).unwrap_or(&[]);
    let both = shape.len().min(text.len());
    for i in 0..both {
        if !stands_for(shape[i], text[i]) {
            return i;
        }
    }
    both
}

// A 0 of a shape stands for any digit, every other byte for itself.
fn stands_for(a: u8, b: u8) -> bool
    ensures { result ≡ stands_for a b }
{
    if a == b'0' {
        octets::is_digit(b)
    } else {
        b == a
    }
}

// The number that two bytes make, which are digits or a blank and a digit.
fn two_digits(s: &[u8], at: usize) -> u32
    requires { at + 2 ≤ length s.now }
    ensures is { result ≡ number (slice s.now at (at + 2)) }
    ensures small { result < 3000 }
{
    digit_value(s[at]) * 10 + digit_value(s[at + 1])
}

fn four_digits(s: &[u8], at: usize) -> u32
    requires { at + 4 ≤ length s.now }
    ensures { result ≡ number (slice s.now at (at + 4)) }
{
    two_digits(s, at) * 100 + two_digits(s, at + 2)
}

fn year_at(s: &[u8], place: YearPlace, present_year: u32) -> u32
    requires { PresentYear present_year × YearInside s.now place }
    ensures { result ≡ year_from present_year s.now place }
{
    match place {
        YearPlace::Two(at) => full_year(present_year, two_digits(s, at)),
        YearPlace::Four(at) => four_digits(s, at),
    }
}

fn digit_value(b: u8) -> u32
    ensures is { result ≡ b - 48 }
    ensures small { result < 256 }
{
    b.saturating_sub(b'0') as u32
}

// "the year from Y-49 to Y+50 with those digits": in the century in which that window begins, or in the next.
fn full_year(present_year: u32, digits: u32) -> u32
    requires { PresentYear present_year × (digits < 3000) }
    ensures { result ≡ full_year present_year digits }
{
    let first = present_year - 49;
    let year = first / 100 * 100 + digits;
    if year < first { year + 100 } else { year }
}
