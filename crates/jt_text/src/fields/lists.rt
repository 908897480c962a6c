//! Elements of lists, as many at a time as the room of a line holds.

ghost use Rattle.std.specs.Prelude.{◌≡◌, ℕ, List, ◌+◌, ◌*◌, ◌<◌, ◌≤◌, ◌++◌, length, string_bytes, OnOk};
ghost use Rattle.std.specs.List.{flat_map};
ghost use Rattle.std.specs.Io.{StartsWith};

use crate::line::{Line, ROOM};
use std::alloc::AllocError;

/// What a list of a message has a text for.
pub(super) trait Shown {
    ghost shown: { Self → List ℕ };

    ghost most: { ℕ };

    /// Octets that each text has at most.
    fn most() -> usize
        ensures value { result ≡ most }
        ensures room { (0 < most) × (most ≤ 512) };

    /// The text of the value, behind a blank, in front of a line.
    fn put_to(&self, line: &mut Line)
        requires { length line.old + most ≤ 512 }
        ensures text { line.new ≡ shown self.now ++ line.old }
        ensures room { length line.new ≤ length line.old + most };
}

// The last element is put first.
#[inline(always)]
fn put_all<T: Shown>(line: &mut Line, list: &[T])
    requires { length line.old + length list.now * T.most ≤ 512 }
    ensures { line.new ≡ flat_map T.shown list.now ++ line.old }
{
    let mut left = list.len();
    while left > 0 {
        left -= 1;
        list[left].put_to(line);
    }
}

/// The texts of a list's elements at the end of a text. `line` is room that is used again.
pub(super) fn push_all<T: Shown>(
    text: &mut String,
    line: &mut Line,
    list: &[T],
) -> Result<(), AllocError>
    ensures text { OnOk result
        (string_bytes text.new ≡ string_bytes text.old ++ flat_map T.shown list.now) }
    ensures kept { StartsWith (string_bytes text.new) (string_bytes text.old) }
{
    let together = ROOM / T::most();
    let mut left = list;
    while !left.is_empty() {
        let (piece, others) = left.split_at(left.len().min(together));
        line.clear();
        put_all(line, piece);
        line.push_to(text)?;
        left = others;
    }
    Ok(())
}
