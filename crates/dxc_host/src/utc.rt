ghost use Rattle.std.specs.Prelude.{◌≡◌};
ghost use Rattle.dxc_outside.specs.Moments.{IsMoment};
ghost use Rattle.dxc_host.specs.Utc.{short_moment, ShowsUtc};

use dxc_outside::Moment;
use jiff::Timestamp;
use jiff::civil::DateTime;
use jiff::tz::TimeZone;

/// The date and time of day at UTC at that second, counted from 1970-01-01 00:00:00, where its year is 2000 to 2099, else
/// 00-01-01 00:00:00. The calendar is that of ISO 8601, and each day has 86,400 seconds.
pub fn moment_of(second: i64) -> Moment
    ensures shown { ShowsUtc second result }
    ensures range { IsMoment result }
{
    match Timestamp::from_second(second) {
        Ok(instant) => short_of(TimeZone::UTC.to_datetime(instant)),
        Err(_) => Moment::FIRST,
    }
}

// With the year cut to two digits, where it is of this century.
fn short_of(shown: DateTime) -> Moment
    ensures shown { result ≡ short_moment shown }
    ensures range { IsMoment result }
{
    let year = shown.year();
    if !(2000..=2099).contains(&year) {
        return Moment::FIRST;
    }
    Moment {
        year: (year - 2000) as u8,
        month: shown.month() as u8,
        day: shown.day() as u8,
        hour: shown.hour() as u8,
        minute: shown.minute() as u8,
        second: shown.second() as u8,
    }
}
