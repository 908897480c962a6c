//! What a terminal is told before it starts.

ghost use Rattle.std.specs.Prelude.{◌↔◌, IsTrue};
ghost use Rattle.jt_header.specs.Content.{IsPhone};
ghost use Rattle.jt_register.specs.Registration.{auth_tail};
ghost use Rattle.jt_terminal_rule.specs.Tails.{IsTail};

use jt_layout::octets_fit;
use jt_register::{AuthTail, Register};
use jt_value::limits::PLATE_LIMIT;
use jt_value::{Edition, Phone};

const IMEI_LEN: usize = 15;

const SOFTWARE_LEN: usize = 20;

/// Who a terminal is, and the parameters that it begins with. Times are in seconds.
#[derive(Drop)]
pub struct Settings {
    /// The phone of all its messages.
    pub phone: Phone,
    /// What it registers with: ids of the lengths of the phone's edition, and a plate of at most 255 octets.
    pub register: Register,
    /// None in 2013, Some in 2019.
    pub tail: Option<AuthTail>,
    /// Parameter 0x0001 (the standard's): how long nothing is sent before a heartbeat is. 0 is never.
    pub heartbeat: u32,
    /// Parameter 0x0002 (the standard's): how long the first wait for an answer is.
    pub answer: u32,
    /// Parameter 0x0003 (the standard's): how often a message is sent again.
    pub repeats: u32,
}

// Whether the phone has twenty decimal digits, those that its edition's field lacks 0.
fn is_phone(phone: &Phone) -> bool
    ensures { IsTrue result ↔ IsPhone phone.now }
{
    let field = phone.octets();
    match Phone::from_octets(phone.edition, field.as_slice()) {
        Ok(read) => read == *phone,
        Err(_) => false,
    }
}

// Every tail fits.
#[tactic(auto, unfolding(jt_register::specs::Registration::auth_tail, jt_layout::specs::Layout::octets_of))]
fn tail_fits(tail: &AuthTail) -> bool
    ensures { IsTrue result × auth_tail.Fits tail.now }
{
    octets_fit(&tail.imei, IMEI_LEN) && octets_fit(&tail.software, SOFTWARE_LEN)
}

fn is_tail(edition: Edition, tail: &Option<AuthTail>) -> bool
    ensures { IsTrue result ↔ IsTail edition tail.now }
{
    match (edition, tail) {
        (Edition::E2013, None) => true,
        (Edition::E2019, Some(tail)) => tail_fits(tail),
        _ => false,
    }
}

impl Settings {
    ghost use Rattle.jt_terminal_rule.specs.Messages.{AreSettings};

    /// Whether a terminal may start with these settings: the phone has twenty decimal digits, those that its edition's field
    /// lacks 0, the registration fits the phone's edition and its plate has at most 255 octets, and there is a tail in 2019
    /// alone.
    pub fn fits(&self) -> bool
        ensures { IsTrue result ↔ AreSettings self.now }
    {
        is_phone(&self.phone)
            && self.register.fits(self.phone.edition)
            && self.register.plate.len() <= PLATE_LIMIT
            && is_tail(self.phone.edition, &self.tail)
    }
}
