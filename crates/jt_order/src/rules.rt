//! The three rules by which a terminal answers an order.

ghost use Rattle.std.specs.Prelude.{◌≡◌, ◌%◌};
ghost use Rattle.jt_value.specs.Serials.{serial_of};
ghost use Rattle.jt_order.specs.Rules.{ruling_by};

use crate::performed::Performed;

/// What a terminal makes of an order.
#[derive(Clone, Copy, Debug, PartialEq, Eq)]
pub enum Ruling {
    /// It was performed last, and the kept result is answered again.
    Again(u8),
    /// It is performed.
    Performs,
    /// It is answered with 1, and nothing changes.
    Refuses,
}

/// The serial of the order of a number, from 0: the number's last sixteen bits (this project's rule).
pub fn serial_of(number: u64) -> u16
    ensures { result ≡ serial_of number }
{
    (number % 65_536) as u16
}

/// The first of the three rules that applies to an order of this serial, id and body, where so many were performed, and
/// this one last: it is the one that was performed last; its serial is that of the next one; or neither.
pub fn rule(count: u64, last: &Option<Performed>, serial: u16, id: u16, body: &[u8]) -> Ruling
    ensures { result ≡ ruling_by count last.now serial (record { id = id; body = body.now }) }
{
    if let Some(performed) = last {
        let same = performed.order.id() == id && performed.order.body() == body;
        if same && count >= 1 && serial == serial_of(count - 1) {
            return Ruling::Again(performed.result);
        }
    }
    if serial == serial_of(count) {
        Ruling::Performs
    } else {
        Ruling::Refuses
    }
}
