//! The fields of requests to send packets again.

ghost use Rattle.std.specs.Prelude.{◌≡◌, ◌++◌, string_bytes, OnOk};
ghost use Rattle.std.specs.Io.{StartsWith};
ghost use Rattle.jt_text.specs.ResendFields.{resend_fields};

use super::lists::{Shown, push_all};
use crate::line::Line;
use jt_codec::Resend;
use std::alloc::AllocError;

// The number of a packet that is asked for.
impl Shown for u16 {
    ghost use Rattle.jt_text.specs.ResendFields.{number_text};

    ghost shown = { number_text };

    ghost most = { 28 };

    #[inline(always)]
    fn most() -> usize {
        28
    }

    #[tactic(auto, unfolding(crate::specs::ResendFields::number_text))]
    #[inline(always)]
    fn put_to(&self, line: &mut Line) {
        line.put_named_number(" number=", *self as u64);
    }
}

#[tactic(auto, using(std::proofs::Common::append_assoc), unfolding(crate::specs::ResendFields::resend_fields))]
pub(super) fn push_resend(
    text: &mut String,
    line: &mut Line,
    resend: &Resend,
) -> Result<(), AllocError>
    ensures text { OnOk result
        (string_bytes text.new ≡ string_bytes text.old ++ resend_fields resend.now) }
    ensures kept { StartsWith (string_bytes text.new) (string_bytes text.old) }
{
    line.clear();
    line.put_named_number(" count=", resend.numbers.len() as u64);
    line.put_named_number(" first=", resend.first as u64);
    line.push_to(text)?;
    push_all(text, line, resend.numbers.as_slice())
}
