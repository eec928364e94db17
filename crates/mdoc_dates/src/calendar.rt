// Days of the calendar, counted from 1970-01-01.
ghost use Rattle.std.specs.Prelude.{◌≡◌, ◌<◌, ◌^◌, pos};
ghost use Rattle.jiff_core.specs.Calendar.{is_leap_year, days_in_year, days_in_month};
ghost use Rattle.mdoc_dates.specs.Tdate.{year_of, month_of, date_of};
ghost use Rattle.mdoc_dates.specs.code.Dates.{said};

/// A day: its year, its month from 1, and its place in the month from 1.
#[derive(Clone, Copy)]
pub struct Date {
    pub year: u64,
    pub month: u64,
    pub day: u64,
}

/// The day that comes so many days after 1970-01-01. From the year 10000 on it is none of the calendar.
#[tactic(auto, using(crate::proofs::Counting::year_left, crate::proofs::Counting::month_left))]
pub fn date_of(days: u64) -> Date
    requires { days < 2 ^ 63 }
    ensures { said result ≡ date_of days }
{
    let (year, day_of_year) = year_of(days);
    let (month, day) = month_of(year, day_of_year);
    Date {
        year,
        month,
        day: day + 1,
    }
}

// The year of a day, and how many days of that year come before it.
fn year_of(days: u64) -> (u64, u64)
    ensures { (result.0, result.1) ≡ year_of 8030 1970 days }
{
    let mut left = days;
    for year in 1970..10_000 {
        let length = days_in_year(year);
        if left < length {
            return (year, left);
        }
        left -= length;
    }
    (10_000, left)
}

// The month of a day of this year, and how many days of that month come before it.
fn month_of(year: u64, days: u64) -> (u64, u64)
    ensures { (result.0, result.1) ≡ month_of (pos year) 11 1 days }
{
    let mut left = days;
    for month in 1..12 {
        let length = days_in_month(year, month);
        if left < length {
            return (month, left);
        }
        left -= length;
    }
    (12, left)
}

fn is_leap_year(year: u64) -> bool
    ensures { result ≡ is_leap_year (pos year) }
{
    year % 4 == 0 && (year % 100 != 0 || year % 400 == 0)
}

fn days_in_year(year: u64) -> u64
    ensures { result ≡ days_in_year (pos year) }
{
    if is_leap_year(year) { 366 } else { 365 }
}

fn days_in_month(year: u64, month: u64) -> u64
    ensures { result ≡ days_in_month (pos year) month }
{
    match month {
        2 => if is_leap_year(year) { 29 } else { 28 },
        4 | 6 | 9 | 11 => 30,
        _ => 31,
    }
}
