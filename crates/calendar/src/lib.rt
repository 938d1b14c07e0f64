// Dates of the Gregorian calendar and their weekdays.
#![tactic(auto)]

ghost use Rattle.std.specs.Prelude.{◌≡◌, ◌-◌, ◌≤◌, true, false, MatchOption};
ghost use Rattle.calendar.specs.Years.{is_leap, first_year, days_of_years};
ghost use Rattle.calendar.specs.Months.{month_length, days_of_months};
ghost use Rattle.calendar.specs.Dates.{is_date, in_century, day_number};
ghost use Rattle.calendar.specs.Weekdays.{weekday, weekday_after, weekday_before};
ghost use Rattle.calendar.specs.Named.{weekday_number};

// A date of the years 2000 to 2099. Its fields are public, since contracts name them: who writes them proves that there is such a date.
#[derive(Clone, Copy, PartialEq, Eq, Debug)]
pub struct Date {
    pub year: u16,
    pub month: u8,
    pub day: u8,
    pub ghost from: { 2000 ≤ year },
    pub ghost to: { year ≤ 2099 },
    pub ghost there: { is_date year month day ≡ true },
}

// The days of a week.
#[derive(Clone, Copy, PartialEq, Eq, Debug)]
pub enum Weekday {
    Monday,
    Tuesday,
    Wednesday,
    Thursday,
    Friday,
    Saturday,
    Sunday,
}

// Is a year a leap year? Every fourth one; of the full hundreds every fourth only.
pub fn is_leap(year: u16) -> bool
    ensures { result ≡ is_leap year }
{
    year % 4 == 0 && year % 100 != 0 || year % 400 == 0
}

// The days of a year before a month; month 13 is behind December. With 30 days in February twelve months would share 367 days evenly; from March on the two
// that it has not are taken off, and a leap day is added.
fn month_start(year: u16, month: u8) -> u16
    requires { (1 ≤ month) × (month ≤ 13) }
    ensures { result ≡ days_of_months year (month - 1) }
{
    let months = month as u16 - 1;
    let days = (367 * months + 5) / 12 - 2 * ((months + 10) / 12);
    let before_march = months < 2;
    if before_march || !is_leap(year) {
        return days;
    }
    days + 1
}

// The days of a month: from its start to the next one's.
fn month_length(year: u16, month: u8) -> u16
    requires { (1 ≤ month) × (month ≤ 12) }
    ensures { result ≡ month_length year month }
{
    month_start(year, month + 1) - month_start(year, month)
}

// Has the year that day of that month?
pub fn is_date(year: u16, month: u8, day: u8) -> bool
    ensures { result ≡ is_date year month day }
{
    (1..=12).contains(&month) && (1..=month_length(year, month)).contains(&(day as u16))
}

// The days from 1 January 2000 to that of a year: 365 a year, and a leap day for each fourth year passed, 2000 the first.
fn year_start(year: u16) -> u16
    requires { (2000 ≤ year) × (year ≤ 2099) }
    ensures { result ≡ days_of_years (year - first_year) }
{
    let years = year - 2000;
    365 * years + (years + 3) / 4
}

impl Date {
    // The date, if it is one of the years 2000 to 2099.
    pub fn new(year: u16, month: u8, day: u8) -> Option<Date>
        ensures { MatchOption result (in_century year month day ≡ false) (λ d. (d.year ≡ year) × (d.month ≡ month) × (d.day ≡ day)) }
    {
        if (2000..=2099).contains(&year) && is_date(year, month, day) {
            Some(Date { year, month, day })
        } else {
            None
        }
    }

    // The days from 1 January 2000 to a date.
    fn day_number(self) -> u32
        ensures { result ≡ day_number self.year self.month self.day }
    {
        year_start(self.year) as u32
            + month_start(self.year, self.month) as u32
            + (self.day - 1) as u32
    }

    // Its weekday. 1 January 2000 was a Saturday, 5.
    pub fn weekday(self) -> Weekday
        ensures { weekday_number result ≡ weekday (day_number self.year self.month self.day) }
    {
        Weekday::numbered(((self.day_number() % 7 + 5) % 7) as u8)
    }
}

impl Weekday {
    // The weekday of a number, 0 Monday to 6 Sunday.
    fn numbered(n: u8) -> Weekday
        requires { n ≤ 6 }
        ensures { weekday_number result ≡ n }
    {
        match n {
            0 => Weekday::Monday,
            1 => Weekday::Tuesday,
            2 => Weekday::Wednesday,
            3 => Weekday::Thursday,
            4 => Weekday::Friday,
            5 => Weekday::Saturday,
            _ => Weekday::Sunday,
        }
    }

    // The weekday of the next day. The day before is a function of its own, as the definitions have both.
    pub fn next(self) -> Weekday
        ensures { weekday_number result ≡ weekday_after (weekday_number self) }
    {
        Weekday::numbered((u8::from(self) + 1) % 7)
    }

    // The weekday of the day before.
    pub fn previous(self) -> Weekday
        ensures { weekday_number result ≡ weekday_before (weekday_number self) }
    {
        Weekday::numbered((u8::from(self) + 6) % 7)
    }
}

// The number of a weekday.
impl From<Weekday> for u8 {
    ghost from_gives = { λ day n. n ≡ weekday_number day };

    fn from(day: Weekday) -> u8 {
        day as u8
    }
}
