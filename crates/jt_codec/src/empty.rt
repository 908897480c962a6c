//! Bodies without fields.

ghost use Rattle.std.specs.Prelude.{MatchResult};
ghost use Rattle.jt_layout.specs.Answer.{Answers};
ghost use Rattle.jt_layout.specs.Layout.{Fills, empty};

use jt_layout::Reader;
use jt_value::{CodecError, Refusal};

// Nothing, where no octets are there.
#[inline(always)]
pub(crate) fn view_empty(octets: &[u8]) -> Result<(), Refusal>
    ensures { MatchResult result (Fills empty octets.now 0)
        (λ refusal. empty.Refuses octets.now 0 refusal) }
{
    Reader::new(octets).end()
}

// The same beside readers that may want memory.
pub(crate) fn read_empty(octets: &[u8]) -> Result<(), CodecError>
    ensures { Answers empty octets.now result }
{
    Ok(view_empty(octets)?)
}
