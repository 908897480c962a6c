//! The words of lines.

ghost use Rattle.std.specs.Prelude.{◌≤◌};

use jt_service::{Away, Cut, ServiceEnd};
use jt_session::End;
use jt_value::{Edition, Phone};

/// Why a session ended.
pub(crate) fn end_word(cut: Option<Cut>, end: End) -> &'static str {
    match cut {
        Some(cut) => cut_word(cut),
        None => match end {
            End::Ended => "ended",
            End::LinkFault => "link-fault",
            End::Idle => "idle",
            End::Spent => "spent",
            End::Fenced(_) => "fenced",
            End::StoreFault => "store-fault",
            End::ListFull(_) => "list-full",
            End::Memory => "memory",
        },
    }
}

fn cut_word(cut: Cut) -> &'static str {
    match cut {
        Cut::Stopped => "stopped",
        Cut::StrangerTime => "stranger-time",
        Cut::StrangerOctets => "stranger-octets",
        Cut::Replaced => "replaced",
        Cut::Dismissed => "dismissed",
        Cut::Renewed => "renewed",
        Cut::StoreFailed => "store-failed",
    }
}

/// Why a link was closed at once.
pub(crate) fn away_word(why: Away) -> &'static str {
    match why {
        Away::Full => "full",
        Away::Strangers => "strangers",
        Away::Address => "strangers-of-address",
        Away::Memory => "memory",
    }
}

/// Why a registration is denied, by the number that the standard gives the reason.
pub(crate) fn denied_word(number: u8) -> &'static str {
    match number {
        1 => "plate-of-another",
        2 => "no-such-plate",
        3 => "terminal-of-another",
        4 => "no-such-terminal",
        _ => "denied",
    }
}

/// Why a service ended.
pub(crate) fn service_word(end: ServiceEnd) -> &'static str {
    match end {
        ServiceEnd::Stopped => "stopped",
        ServiceEnd::Renewed => "renewed",
        ServiceEnd::StoreFailed => "store-failed",
        ServiceEnd::Over => "over",
        ServiceEnd::NumbersSpent => "numbers-spent",
        ServiceEnd::ListenerFailed => "listener-failed",
        ServiceEnd::NoThread => "no-thread",
        ServiceEnd::Memory => "memory",
    }
}

/// The digits of a phone, of which one of 2013 has the last twelve.
pub(crate) fn phone_digits(phone: &Phone) -> [u8; 20] {
    let mut digits = [b'0'; 20];
    for (place, octet) in phone.digits.iter().enumerate() {
        digits[2 * place] = b'0' + *octet / 16;
        digits[2 * place + 1] = b'0' + *octet % 16;
    }
    digits
}

/// How many of the digits come before the phone's own.
pub(crate) fn digits_before(phone: &Phone) -> usize
    ensures { result ≤ 20 }
{
    match phone.edition {
        Edition::E2013 => 8,
        Edition::E2019 => 0,
    }
}
