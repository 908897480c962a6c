//! Terminal ids without the zeros at their end.

ghost use Rattle.std.specs.Prelude.{◌≡◌};
ghost use Rattle.jt_store.specs.Tables.{IsTrimmed};
ghost use Rattle.jt_platform.specs.History.{trim_zeros};

// The octets without the zeros at their end.
pub(crate) fn without_zeros(octets: &[u8]) -> &[u8]
    ensures trimmed { result.now ≡ trim_zeros octets.now }
    ensures end { IsTrimmed result.now }
{
    let mut end = octets.len();
    while end > 0 && octets[end - 1] == 0 {
        end -= 1;
    }
    &octets[..end]
}
