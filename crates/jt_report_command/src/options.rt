//! The options of `report`, as they are written.

ghost use Rattle.std.specs.Prelude.{◌≡◌, ◌≤◌, ◌<◌, ℕ, List, [], ◌∷◌, None, drop, map, length, string_bytes, IfSome, option_to_list, option_copied};
ghost use Rattle.jt_report_command.specs.Options.{IsKnown, BeginWith, AreOptions, values_of};
ghost use Rattle.jt_report_command.specs.Finding.{AreSome, Have, BeginsOne, BeginWithNone, Steps, HasTooMany};

use jt_words::option_value;

pub(crate) const HOST: &[u8] = b"host";

pub(crate) const PORT: &[u8] = b"port";

pub(crate) const PHONE: &[u8] = b"phone";

pub(crate) const PLATE: &[u8] = b"plate";

pub(crate) const TERMINAL: &[u8] = b"terminal";

pub(crate) const TRIES: &[u8] = b"tries";

pub(crate) const EDITION: &[u8] = b"edition";

// An option that words begin with.
#[derive(Clone, Copy)]
struct First<'w> {
    name: &'static [u8],
    value: &'w [u8],
    // How many words it takes.
    count: usize,
}

// The first option, where it has this name.
fn named<'w>(words: &'w [String], name: &'static [u8]) -> Option<First<'w>>
    requires { IsKnown name.now }
    ensures some { IfSome result (λ first. (0 < first.count) × (first.count ≤ length words.now)
        × BeginsOne (first.name.now, first.value.now) (map string_bytes words.now)
        (map string_bytes (drop first.count words.now))) }
    ensures none { result ≡ None → (option : List ℕ × List ℕ) (back : List (List ℕ)) →
        BeginWith option (map string_bytes words.now) back → option.0 ≡ name.now → ⊥ }
{
    let (value, count) = option_value(words, name)?;
    Some(First { name, value, count })
}

// The first option, where it has one of the names.
fn first_option<'w>(words: &'w [String]) -> Option<First<'w>>
    ensures some { IfSome result (λ first. (0 < first.count) × (first.count ≤ length words.now)
        × BeginsOne (first.name.now, first.value.now) (map string_bytes words.now)
        (map string_bytes (drop first.count words.now))) }
    ensures none { result ≡ None → BeginWithNone (map string_bytes words.now) }
{
    match named(words, HOST) {
        Some(first) => return Some(first),
        None => {}
    }
    match named(words, PORT) {
        Some(first) => return Some(first),
        None => {}
    }
    match named(words, PHONE) {
        Some(first) => return Some(first),
        None => {}
    }
    match named(words, PLATE) {
        Some(first) => return Some(first),
        None => {}
    }
    match named(words, TERMINAL) {
        Some(first) => return Some(first),
        None => {}
    }
    match named(words, TRIES) {
        Some(first) => return Some(first),
        None => {}
    }
    named(words, EDITION)
}

// Passes the first option: the value that was found under the name so far, and how many words the option takes.
fn step<'w>(
    words: &'w [String],
    name: &[u8],
    found: Option<&'w [u8]>,
) -> Option<(Option<&'w [u8]>, usize)>
    requires { 0 < length words.now }
    ensures some { IfSome result (λ step. (0 < step.1) × (step.1 ≤ length words.now)
        × Steps name.now (map string_bytes words.now) (option_to_list (option_copied found.entry))
        (map string_bytes (drop step.1 words.now)) (option_to_list (option_copied step.0))) }
    ensures none { result ≡ None → HasTooMany name.now (map string_bytes words.now)
        (option_to_list (option_copied found.entry)) }
{
    let first = first_option(words)?;
    if first.name != name {
        return Some((found, first.count));
    }
    match found {
        None => Some((Some(first.value), first.count)),
        Some(_) => None,
    }
}

// The value under a name, if there is one. None where the words are no options, or more than one has this name.
pub(crate) fn value_of<'w>(words: &'w [String], name: &[u8]) -> Option<Option<&'w [u8]>>
    ensures some { IfSome result (λ found. AreSome (map string_bytes words.now)) }
    ensures value { IfSome result (λ found.
        Have name.now (map string_bytes words.now) (option_to_list (option_copied found))) }
    ensures none { result ≡ None → HasTooMany name.now (map string_bytes words.now) [] }
{
    let mut from = 0;
    let mut found = None;
    while from < words.len() {
        let (now, count) = step(&words[from..], name, found)?;
        found = now;
        from += count;
    }
    Some(found)
}

// The one value under a name.
pub(crate) fn one_value_of<'w>(words: &'w [String], name: &[u8]) -> Option<&'w [u8]>
    ensures value { IfSome result (λ value.
        Have name.now (map string_bytes words.now) (value.now ∷ [])) }
    ensures none { result ≡ None → (value : List ℕ) (options : List (List ℕ × List ℕ)) →
        AreOptions options (map string_bytes words.now) →
        values_of name.now options ≡ value ∷ [] → ⊥ }
{
    value_of(words, name)?
}
