// The calendar: Gregorian dates, and the two epochs of an instant.
#![tactic(auto)]

ghost use Rattle.std.specs.Prelude.{◌≡◌, true, ◌≤◌, ◌<◌, nat_abs, take};
ghost use Rattle.calendar.specs.Date.{leap_year, months, total, month_length, is_date, year_days, day_count};
ghost use Rattle.calendar.specs.Time.{leap_second_day, last_millisecond, is_time, day_millisecond, is_dut1, is_delta_t, instant, epochs_of, instant_of, instant_values};
ghost use Rattle.calendar.specs.Sizes.{UniversalSpan};

use epoch::Epoch;
use refusal::Refusal;

// The days of a common year before each of its months.
static DAYS_BEFORE: [u16; 12] = [0, 31, 59, 90, 120, 151, 181, 212, 243, 273, 304, 334];

// Fields 1 to 7 and 11 of the card: the date, the time of day in UTC, and DUT1 and ΔT in milliseconds. DUT1 is UT1 − UTC, ΔT is ET − UT1.
#[derive(Clone, Copy, Debug, PartialEq, Eq)]
pub struct CivilTime {
    pub year: i64,
    pub month: i64,
    pub day: i64,
    pub hour: i64,
    pub minute: i64,
    pub millisecond: i64,
    pub dut1: i64,
    pub delta_t: i64,
}

// The two epochs of an accepted instant: sidereal time goes by universal time, all else by ephemeris time, which is ΔT ahead.
#[derive(Clone, Copy, Debug, PartialEq, Eq)]
pub struct Epochs {
    pub universal: Epoch,
    pub ephemeris: Epoch,
}

fn leap_year(year: u64) -> bool
    ensures { result ≡ leap_year year }
{
    year % 4 == 0 && (year % 100 != 0 || year % 400 == 0)
}

// The length of a month of a year, in days.
fn month_length(year: u64, month: u64) -> u64
    requires { (1 ≤ month) × (month ≤ 12) }
    ensures { (result ≡ month_length year month) × (result ≤ 31) }
{
    match month {
        2 if leap_year(year) => 29,
        2 => 28,
        4 | 6 | 9 | 11 => 30,
        _ => 31,
    }
}

// Whether three numbers are a date between 1976-01-01 and 2049-12-31.
pub fn is_date(year: i64, month: i64, day: i64) -> bool
    ensures { result ≡ is_date year month day }
{
    exact::between(1976, year, 2049)
        && exact::between(1, month, 12)
        && exact::between(
            1,
            day,
            month_length(exact::magnitude(year), exact::magnitude(month)) as i64,
        )
}

// The days in the first `count` months of a year.
fn days_before(count: usize, leap: bool) -> u64
    requires { count ≤ 11 }
    ensures { (result ≡ total (take count (months leap))) × (result ≤ 335) }
{
    let days = u64::from(DAYS_BEFORE[count]);
    if leap && count >= 2 { days + 1 } else { days }
}

// The days in the `count` years from 1900 on: 1900 is no leap year, and from 1904 to 2096 every fourth is.
fn year_days(count: u64) -> u64
    requires { (1 ≤ count) × (count ≤ 200) }
    ensures { (result ≡ year_days count) × (result ≤ 75_000) }
{
    365 * count + (count - 1) / 4
}

// D, the days from 1899-12-31 to a date.
pub fn day_count(year: i64, month: i64, day: i64) -> u64
    requires { is_date year month day ≡ true }
    ensures { result ≡ day_count (nat_abs year) (nat_abs month) (nat_abs day) }
{
    let y = exact::magnitude(year);
    let m = exact::magnitude(month) as usize;
    year_days(y - 1900) + days_before(m - 1, leap_year(y)) + exact::magnitude(day)
}

// Whether the last minute of a date may have a leap second.
fn leap_second_day(month: u64, day: u64) -> bool
    ensures { result ≡ leap_second_day month day }
{
    (month == 6 && day == 30) || (month == 12 && day == 31)
}

// The last millisecond of a minute.
fn last_millisecond(month: u64, day: u64, hour: u64, minute: u64) -> u64
    ensures { (result ≡ last_millisecond month day hour minute) × (result < 61_000) }
{
    if hour == 23 && minute == 59 && leap_second_day(month, day) {
        60_999
    } else {
        59_999
    }
}

impl CivilTime {
    // Whether its hour, minute and millisecond are a time of day on its date.
    fn is_time(self) -> bool
        ensures { result ≡ is_time self.month self.day self.hour self.minute self.millisecond }
    {
        exact::between(0, self.hour, 23)
            && exact::between(0, self.minute, 59)
            && exact::between(
                0,
                self.millisecond,
                last_millisecond(
                    exact::magnitude(self.month),
                    exact::magnitude(self.day),
                    exact::magnitude(self.hour),
                    exact::magnitude(self.minute),
                ) as i64,
            )
    }

    // The millisecond of the day.
    fn day_millisecond(self) -> u64
        requires { day_millisecond self.hour self.minute self.millisecond ≤ 86_400_999 }
        ensures { result ≡ day_millisecond self.hour self.minute self.millisecond }
    {
        (exact::magnitude(self.hour) * 60 + exact::magnitude(self.minute)) * 60_000
            + exact::magnitude(self.millisecond)
    }

    // N: the milliseconds since 1900 January 0.5.
    fn instant(self) -> i64
        requires { (is_date self.year self.month self.day ≡ true) × (is_time self.month self.day self.hour self.minute self.millisecond ≡ true) × (is_dut1 self.dut1 ≡ true) }
        ensures { (result ≡ instant self) × UniversalSpan result }
    {
        let day = day_count(self.year, self.month, self.day);
        let ms = self.day_millisecond();
        (86_400_000 * day + ms) as i64 - 43_200_000 + self.dut1
    }
}

// The epochs of an accepted instant: of N, and of N with ΔT.
fn epochs_of(n: i64, delta_t: i64) -> Epochs
    requires { UniversalSpan n × (is_delta_t delta_t ≡ true) }
    ensures { result ≡ epochs_of n delta_t }
{
    Epochs {
        universal: epoch::epoch_of(n),
        ephemeris: epoch::epoch_of(n + delta_t),
    }
}

// The instant of any eight numbers: its epochs, or the first refusal that applies.
pub fn instant_of(t: CivilTime) -> Result<Epochs, Refusal>
    ensures { instant_values result ≡ instant_of t }
{
    if !is_date(t.year, t.month, t.day) {
        return Err(Refusal::NoDate);
    }
    if !t.is_time() {
        return Err(Refusal::NoTime);
    }
    if !exact::between(-900, t.dut1, 900) {
        return Err(Refusal::NoDut1);
    }
    if !exact::between(0, t.delta_t, 120_000) {
        return Err(Refusal::NoDeltaT);
    }
    Ok(epochs_of(t.instant(), t.delta_t))
}
