//! The words of a line: up to a space, or between double quotes.

ghost use Rattle.std.specs.Prelude.{◌<◌, IfSome, length};

// A word of a line.
#[derive(Clone, Copy)]
pub(crate) enum Word<'a> {
    /// What stands between spaces.
    Bare(&'a [u8]),
    /// What stands between double quotes.
    Quoted(&'a [u8]),
}

// The octets without the spaces before them.
pub(crate) fn without_spaces(octets: &[u8]) -> &[u8] {
    match octets.iter().position(|octet| *octet != b' ') {
        Some(place) => &octets[place..],
        None => b"".as_slice(),
    }
}

// The place of the first such octet.
fn place_of(octets: &[u8], wanted: u8) -> Option<usize>
    ensures { IfSome result (λ place. place < length octets.now) }
{
    octets.iter().position(|octet| *octet == wanted)
}

// What stands up to the first space, and what stands from there on.
fn cut_bare(octets: &[u8]) -> (&[u8], &[u8]) {
    match place_of(octets, b' ') {
        Some(place) => (&octets[..place], &octets[place..]),
        None => (octets, b"".as_slice()),
    }
}

// What stands up to the first double quote, and what stands behind it: a space, or nothing.
fn cut_quoted(octets: &[u8]) -> Option<(&[u8], &[u8])> {
    let place = place_of(octets, b'"')?;
    let behind = &octets[place + 1..];
    match behind.first() {
        None | Some(b' ') => Some((&octets[..place], behind)),
        Some(_) => None,
    }
}

// The first word of a line, and what stands behind it. None where no word is there, or its closing quote is missing.
pub(crate) fn next_word(line: &[u8]) -> Option<(Word<'_>, &[u8])> {
    let line = without_spaces(line);
    let (first, rest) = line.split_first()?;
    if *first == b'"' {
        let (word, behind) = cut_quoted(rest)?;
        return Some((Word::Quoted(word), behind));
    }
    let (word, behind) = cut_bare(line);
    Some((Word::Bare(word), behind))
}
