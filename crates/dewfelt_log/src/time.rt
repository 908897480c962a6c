//! Moments as text, in the standard's time zone.

ghost use Rattle.std.specs.Prelude.{◌≡◌, ◌<◌, MatchOption};
ghost use Rattle.dewfelt_log.specs.Time.{two_digits, stamp, stamp_of, IsLocal, IsTooLate, Tells};

use jiff::Timestamp;
use jiff::civil::DateTime;
use jiff::tz::Offset;

// The standard's time zone: GMT+8.
const HOURS: i8 = 8;

// The two last digits of a number.
fn digits(number: u16) -> [u8; 2]
    ensures { result ≡ two_digits number }
{
    [b'0' + (number / 10 % 10) as u8, b'0' + (number % 10) as u8]
}

fn local(seconds: u64) -> Option<DateTime>
    ensures { MatchOption result (IsTooLate seconds) (IsLocal seconds) }
{
    let timestamp = Timestamp::from_second(i64::try_from(seconds).ok()?).ok()?;
    let offset = Offset::from_hours(HOURS).ok()?;
    Some(offset.to_datetime(timestamp))
}

fn text_of(year: u16, month: u8, day: u8, hour: u8, minute: u8, second: u8) -> [u8; 25]
    ensures { result ≡ stamp year month day hour minute second }
{
    let c = digits(year / 100);
    let y = digits(year);
    let m = digits(month as u16);
    let d = digits(day as u16);
    let h = digits(hour as u16);
    let n = digits(minute as u16);
    let s = digits(second as u16);
    [
        c[0], c[1], y[0], y[1], b'-', m[0], m[1], b'-', d[0], d[1], b'T', h[0], h[1], b':', n[0],
        n[1], b':', s[0], s[1], b'+', b'0', b'8', b':', b'0', b'0',
    ]
}

fn text_at(moment: DateTime) -> [u8; 25]
    ensures { result ≡ stamp_of moment }
{
    text_of(
        moment.year().unsigned_abs(),
        moment.month().unsigned_abs(),
        moment.day().unsigned_abs(),
        moment.hour().unsigned_abs(),
        moment.minute().unsigned_abs(),
        moment.second().unsigned_abs(),
    )
}

/// A moment in seconds since 1970-01-01T00:00:00Z as `2026-11-30T15:05:02+08:00`. A moment from
/// 9999-12-30T22:00:01Z on is shown as zeros.
pub fn time_text(seconds: u64) -> [u8; 25]
    ensures { Tells seconds result }
{
    match local(seconds) {
        Some(moment) => text_at(moment),
        None => text_of(0, 0, 0, 0, 0, 0),
    }
}
