// The Gregorian calendar and instants in seconds since 1970-01-01 00:00:00.
#![tactic(auto)]

ghost use Rattle.std.specs.Prelude.{◌≡◌, true, ◌+◌, ◌*◌, ◌/◌, ◌%◌, ◌≤◌, ◌<◌};
ghost use Rattle.calendar.specs.Gregorian.{leap?, month_length, days_of_years, days_of_months, day_number, weekday, date?, time?};
ghost use Rattle.calendar.specs.Instants.{located, told, in_range?, since_first, since_epoch};
ghost use Rattle.calendar.specs.Instants.{years_before, months_before, fields_on};

#[derive(Clone, Copy, Debug, PartialEq, Eq)]
pub struct Fields {
    pub year: u32,
    pub month: u32,
    pub day: u32,
    pub hour: u32,
    pub minute: u32,
    pub second: u32,
}

// The instant of a date and a time of day, with its day of the week, counted from 0, which is Monday.
#[derive(Clone, Copy, Debug, PartialEq, Eq)]
pub struct Instant {
    pub seconds: i64,
    pub weekday: u32,
}

// The date and the time of day of an instant, with its day of the week.
#[derive(Clone, Copy, Debug, PartialEq, Eq)]
pub struct Moment {
    pub fields: Fields,
    pub weekday: u32,
}

const FIRST_YEAR: u32 = 1583;

const LAST_YEAR: u32 = 9999;

// The range of instants.
const FIRST_SECOND: i64 = -12212553600;

const LAST_SECOND: i64 = 253402300799;

// The seconds of a day, for sums from the first day on and for signed instants.
const DAY_SECONDS: u64 = 86400;

const SIGNED_DAY: i64 = 86400;

// The seconds, and the days, from 1583-01-01 00:00:00 to 1970-01-01 00:00:00.
const EPOCH: i64 = 12212553600;

const EPOCH_DAY: i64 = 141349;

// The months of a common year: their lengths, and the days before each.
const LENGTHS: [u32; 12] = [31, 28, 31, 30, 31, 30, 31, 31, 30, 31, 30, 31];

const BEFORE: [u32; 12] = [0, 31, 59, 90, 120, 151, 181, 212, 243, 273, 304, 334];

fn is_leap(year: u32) -> bool
    ensures { result ≡ leap? year }
{
    year % 4 == 0 && (year % 100 != 0 || year % 400 == 0)
}

// The length of a month, counted from 0.
fn month_length(leap: bool, index: usize) -> u32
    requires { index < 12 }
    ensures { result ≡ month_length leap (index + 1) }
{
    let days = LENGTHS[index];
    if leap && index == 1 { days + 1 } else { days }
}

// The days of a year before a month, counted from 0.
fn days_before(leap: bool, index: usize) -> u32
    requires { index < 12 }
    ensures { result ≡ days_of_months leap index }
{
    let days = BEFORE[index];
    if leap && index > 1 { days + 1 } else { days }
}

// The days of the first n years from 1583 on.
fn days_of_years(n: u32) -> u32
    requires { n ≤ 8418 }
    ensures { result ≡ days_of_years n }
{
    let last = n + 1582;
    365 * n + last / 4 + last / 400 - last / 100 - 383
}

// The whole months before a day of a year.
fn whole_months(leap: bool, day: u32) -> usize
    ensures { result ≡ months_before leap day }
{
    for k in (1..12).rev() {
        if days_before(leap, k) <= day {
            return k;
        }
    }
    0
}

fn date_exists(year: u32, month: u32, day: u32) -> bool
    ensures { result ≡ date? year month day }
{
    (FIRST_YEAR..=LAST_YEAR).contains(&year)
        && (1..=12).contains(&month)
        && day >= 1
        && day <= month_length(is_leap(year), (month - 1) as usize)
}

fn time_exists(hour: u32, minute: u32, second: u32) -> bool
    ensures { result ≡ time? hour minute second }
{
    hour < 24 && minute < 60 && second < 60
}

// A day of the range, by its number, counted from 1583-01-01.
#[derive(Clone, Copy)]
struct Day {
    number: u32,
    ghost in_range: { number < 3074246 },
}

impl Day {
    // The day of a date.
    fn of_date(year: u32, month: u32, day: u32) -> Day
        requires { date? year month day ≡ true }
        ensures { result.number ≡ day_number year month day }
    {
        let years = days_of_years(year - FIRST_YEAR);
        let months = days_before(is_leap(year), (month - 1) as usize);
        Day {
            number: years + months + (day - 1),
        }
    }

    // The day of an instant.
    fn of_instant(seconds: i64) -> Day
        requires { in_range? seconds ≡ true }
        ensures { result.number ≡ since_first seconds / 86400 }
    {
        Day {
            number: (seconds.div_euclid(SIGNED_DAY) + EPOCH_DAY) as u32,
        }
    }

    fn weekday(self) -> u32
        ensures { result ≡ weekday self.number }
    {
        (self.number + 5) % 7
    }

    // The instant of a second of the day.
    fn seconds(self, second: u32) -> i64
        requires { second < 86400 }
        ensures { result ≡ since_epoch (self.number * 86400 + second) }
    {
        let elapsed = self.number as u64 * DAY_SECONDS + second as u64;
        elapsed as i64 - EPOCH
    }

    // The whole years from 1583 on before it. The guess, as if every fourth year were a leap year, is at most one too low.
    fn whole_years(self) -> u32
        ensures { result ≡ years_before self.number }
    {
        let n = self.number * 4 / 1461;
        if days_of_years(n + 1) <= self.number {
            n + 1
        } else {
            n
        }
    }

    // Its date, and the time of day of a second of it.
    fn fields(self, second: u32) -> Fields
        ensures { result ≡ fields_on self.number second }
    {
        let years = self.whole_years();
        let year = FIRST_YEAR + years;
        let day_of_year = self.number - days_of_years(years);
        let leap = is_leap(year);
        let months = whole_months(leap, day_of_year);
        Fields {
            year,
            month: months as u32 + 1,
            day: day_of_year - days_before(leap, months) + 1,
            hour: second / 3600,
            minute: second / 60 % 60,
            second: second % 60,
        }
    }
}

pub fn locate(f: Fields) -> Option<Instant>
    ensures { result ≡ located f }
{
    if !date_exists(f.year, f.month, f.day) || !time_exists(f.hour, f.minute, f.second) {
        return None;
    }
    let day = Day::of_date(f.year, f.month, f.day);
    let second = f.hour * 3600 + f.minute * 60 + f.second;
    Some(Instant {
        seconds: day.seconds(second),
        weekday: day.weekday(),
    })
}

// The second of an instant's day.
fn second_in_day(seconds: i64) -> u32
    requires { in_range? seconds ≡ true }
    ensures { result ≡ since_first seconds % 86400 }
{
    seconds.rem_euclid(SIGNED_DAY) as u32
}

pub fn fields_at(seconds: i64) -> Option<Moment>
    ensures { result ≡ told seconds }
{
    if !(FIRST_SECOND..=LAST_SECOND).contains(&seconds) {
        return None;
    }
    let day = Day::of_instant(seconds);
    Some(Moment {
        fields: day.fields(second_in_day(seconds)),
        weekday: day.weekday(),
    })
}
