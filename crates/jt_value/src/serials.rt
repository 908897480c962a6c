//! Serials of sixteen bits that wrap, and the numbers without a bound that they stand for.

ghost use Rattle.std.specs.Prelude.{◌≡◌, ◌↔◌, ◌≤◌, ◌<◌, ◌^◌, ℕ, Bool, IfSome, IsTrue};
ghost use Rattle.jt_value.specs.Serials.{gap_of, verdict_at, IsPlace, IsVerdict, SerialsTell, Verdict};

use crate::limits::SERIAL_WINDOW;
use crate::placing::Place;

// How many serials there are.
const SERIALS: u64 = 65_536;

/// How far the serial `to` is above the serial `from`: 0 to 65,535, counted on over the wrap.
pub fn gap(from: u16, to: u16) -> u16
    ensures gap { result ≡ gap_of from to }
{
    to.wrapping_sub(from)
}

/// Where a unit with this serial goes, by the number of its phone's last row, which is at most 2^62.
pub fn place(last: Option<u64>, serial: u16) -> Place
    requires { IfSome last (λ n. n ≤ 2 ^ 62) }
    ensures place { IsPlace last serial result }
    ensures verdict { (has : ℕ → Bool) (v : Verdict) →
        IsVerdict last (λ n. IsTrue (has n)) serial v ↔ (v ≡ verdict_at result has) }
{
    place_of(last, serial)
}

// Where a unit goes, by its serial alone.
fn place_of(last: Option<u64>, serial: u16) -> Place
    requires { IfSome last (λ n. n ≤ 2 ^ 62) }
    ensures { IsPlace last serial result }
{
    let serial = u64::from(serial);
    let Some(last) = last else {
        return Place::First(serial);
    };
    let gap = (serial + SERIALS - last % SERIALS) % SERIALS;
    if 0 < gap && gap <= u64::from(SERIAL_WINDOW) {
        return Place::New(last + gap);
    }
    let back = (SERIALS - gap) % SERIALS;
    let candidate = if back <= last {
        Some(last - back)
    } else {
        None
    };
    Place::Back {
        candidate,
        anew: last + gap + SERIALS,
    }
}

/// The laws of serials on plain numbers: what every verdict near the last row is, that numbers near a mark are told
/// apart by their serials, and which number is the least above another with a serial.
pub fn law_serials()
    ensures { SerialsTell }
{}
