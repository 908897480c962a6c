//! Moments of positions.

ghost use Rattle.std.specs.Prelude.{◌≡◌, ◌<◌, ◌↔◌, pos, IsSome, IfSome};
ghost use Rattle.jiff.specs.Words.{IsDate, IsTime, IsYmd, IsHms};
ghost use Rattle.jt_position.specs.Moments.{IsDecimal, decimal_of, NamesMoment, IsMoment};

use jiff::civil::DateTime;

// The number of an octet's two digits, where each is at most 9.
fn decimal(octet: u8) -> Option<u8>
    ensures exact { IsSome result ↔ IsDecimal octet }
    ensures value { IfSome result (λ number. number ≡ decimal_of octet) }
    ensures below { IfSome result (λ number. number < 100) }
{
    if octet / 16 > 9 || octet % 16 > 9 {
        return None;
    }
    Some(10 * (octet / 16) + octet % 16)
}

fn date_time(year: u16, month: u8, day: u8, hour: u8, minute: u8, second: u8) -> Option<DateTime>
    requires date { (year < 2100) × (month < 100) × (day < 100) }
    requires clock { (hour < 100) × (minute < 100) × (second < 100) }
    ensures exact { IsSome result ↔ (IsDate (pos year) (pos month) (pos day)
        × IsTime (pos hour) (pos minute) (pos second) (pos 0)) }
    ensures value { IfSome result
        (λ moment. IsYmd (pos year) (pos month) (pos day) moment.date
        × IsHms (pos hour) (pos minute) (pos second) (pos 0) moment.time) }
{
    DateTime::new(
        year as i16,
        month as i8,
        day as i8,
        hour as i8,
        minute as i8,
        second as i8,
        0,
    )
    .ok()
}

/// The date and the time of day in GMT+8 that a position's time names, YYMMDDhhmmss in the year 2000 + YY with seconds up to
/// 59. None where a digit is above 9 or there is no such date or time of day.
pub fn moment(time: &[u8; 6]) -> Option<DateTime>
    ensures exact { IsSome result ↔ NamesMoment time.now }
    ensures value { IfSome result (IsMoment time.now) }
{
    let year = decimal(time[0])?;
    let month = decimal(time[1])?;
    let day = decimal(time[2])?;
    let hour = decimal(time[3])?;
    let minute = decimal(time[4])?;
    let second = decimal(time[5])?;
    date_time(2000 + year as u16, month, day, hour, minute, second)
}
