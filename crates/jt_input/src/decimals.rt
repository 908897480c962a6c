//! Numbers in decimal digits.

ghost use Rattle.std.specs.Prelude.{◌≡◌, ◌≢◌, ◌↔◌, ◌≤◌, IsTrue, length, slice_index};
ghost use Rattle.std.specs.Fmt.{decimal};
ghost use Rattle.jt_input.specs.Spelling.{Reads};

// Whether digits have no sign and no leading zero before them.
fn is_plain(digits: &[u8]) -> bool
    ensures { IsTrue result ↔ ((slice_index digits.now 0 ≢ 43)
        × (slice_index digits.now 0 ≡ 48 → length digits.now ≡ 1)) }
{
    match digits.first() {
        Some(b'+') => false,
        Some(b'0') => digits.len() == 1,
        _ => true,
    }
}

/// The number up to `most` that these octets write in decimal digits, without a sign and without a leading zero.
pub fn number(octets: &[u8], most: u32) -> Option<u32>
    ensures { Reads decimal (λ number. number ≤ most) octets.now result }
{
    let Ok(text) = str::from_utf8(octets) else {
        return None;
    };
    let Ok(number) = text.parse::<u32>() else {
        return None;
    };
    if number > most {
        return None;
    }
    if is_plain(octets) { Some(number) } else { None }
}
