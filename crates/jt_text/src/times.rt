//! The test of a position's time.

ghost use Rattle.std.specs.Prelude.{◌≡◌, ◌/◌, ◌%◌, ◌&&◌, nat_le, pos};
ghost use Rattle.jiff.specs.Words.{days_in_month};
ghost use Rattle.jt_position.specs.Moments.{are_decimal, decimal_of, is_date, is_time, names_moment};

// Both digits are at most 9.
#[inline(always)]
fn is_decimal(octet: u8) -> bool
    ensures { result ≡ (nat_le (octet / 16) 9 && nat_le (octet % 16) 9) }
{
    octet / 16 <= 9 && octet % 16 <= 9
}

#[inline(always)]
fn are_decimal(time: &[u8; 6]) -> bool
    ensures { result ≡ are_decimal time.now }
{
    is_decimal(time[0])
        && (is_decimal(time[1])
            && (is_decimal(time[2])
                && (is_decimal(time[3]) && (is_decimal(time[4]) && is_decimal(time[5])))))
}

// The number of an octet's two digits.
#[inline(always)]
fn decimal(octet: u8) -> u8
    ensures { result ≡ decimal_of octet }
{
    10 * (octet / 16) + octet % 16
}

fn days_in_month(year: u16, month: u8) -> u8
    ensures { result ≡ days_in_month (pos year) month }
{
    match month {
        2 => {
            if year % 4 == 0 && (year % 100 != 0 || year % 400 == 0) {
                29
            } else {
                28
            }
        }
        4 | 6 | 9 | 11 => 30,
        _ => 31,
    }
}

#[inline(always)]
fn is_date(year: u8, month: u8, day: u8) -> bool
    ensures { result ≡ is_date year month day }
{
    (1 <= month && month <= 12) && (1 <= day && day <= days_in_month(2000 + year as u16, month))
}

#[inline(always)]
fn is_time(hour: u8, minute: u8, second: u8) -> bool
    ensures { result ≡ is_time hour minute second }
{
    hour <= 23 && (minute <= 59 && second <= 59)
}

// Whether the time names a moment.
#[tactic(auto, unfolding(jt_position::specs::Moments::names_moment))]
pub(crate) fn names_moment(time: &[u8; 6]) -> bool
    ensures { result ≡ names_moment time.now }
{
    are_decimal(time)
        && (is_date(decimal(time[0]), decimal(time[1]), decimal(time[2]))
            && is_time(decimal(time[3]), decimal(time[4]), decimal(time[5])))
}
