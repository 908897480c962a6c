//! Options with a value, in one word or two.

ghost use Rattle.std.specs.Prelude.{◌≡◌, ◌≢◌, ◌≤◌, ◌<◌, ◌++◌, ℕ, List, map, take, length, string_bytes, IfSome, MatchOption, codes};
ghost use Rattle.jt_words.specs.OptionWords.{IsOption, ArePair};

// What stands behind a front, where the octets begin with it.
fn behind<'w>(octets: &'w [u8], front: &[u8]) -> Option<&'w [u8]>
    ensures { MatchOption result ((rest : List ℕ) → octets.now ≢ front.now ++ rest)
        (λ rest. octets.now ≡ front.now ++ rest.now) }
{
    octets.strip_prefix(front)
}

// What stands in a word behind `--` and the name.
fn behind_name<'w>(word: &'w [u8], name: &[u8]) -> Option<&'w [u8]>
    ensures { MatchOption result ((rest : List ℕ) → word.now ≢ codes "--" ++ (name.now ++ rest))
        (λ rest. word.now ≡ codes "--" ++ (name.now ++ rest.now)) }
{
    behind(behind(word, b"--")?, name)
}

/// The value of the option of this name, where the first words are that option, written `--name=value` or `--name value`, and
/// how many words it takes. The value is as it stands, and may be empty.
pub fn option_value<'w>(words: &'w [String], name: &[u8]) -> Option<(&'w [u8], usize)>
    ensures some { IfSome result (λ found. (found.1 ≤ length words.now)
        × IsOption name.now found.0.now (map string_bytes (take found.1 words.now))) }
    ensures each { (value : List ℕ) (front back : List (List ℕ)) →
        map string_bytes words.now ≡ front ++ back → IsOption name.now value front →
        MatchOption result ⊥ (λ found. (found.0.now ≡ value) × (found.1 ≡ length front)) }
{
    let (word, others) = words.split_first()?;
    let rest = behind_name(word.as_bytes(), name)?;
    if rest.is_empty() {
        let (value, _) = others.split_first()?;
        return Some((value.as_bytes(), 2));
    }
    let value = behind(rest, b"=")?;
    Some((value, 1))
}

/// The values of two options, where the words are the first one, then the second one, and no more.
pub fn option_pair<'w>(
    words: &'w [String],
    first: &[u8],
    second: &[u8],
) -> Option<(&'w [u8], &'w [u8])>
    ensures some { IfSome result (λ values.
        ArePair first.now values.0.now second.now values.1.now (map string_bytes words.now)) }
    ensures each { (one two : List ℕ) →
        ArePair first.now one second.now two (map string_bytes words.now) →
        MatchOption result ⊥ (λ values. (values.0.now ≡ one) × (values.1.now ≡ two)) }
{
    let (one, count) = option_value(words, first)?;
    let (two, rest) = option_value(&words[count..], second)?;
    if count + rest == words.len() {
        Some((one, two))
    } else {
        None
    }
}

/// The value of the option of this name, where the words are that option and no more.
pub fn only_option_value<'w>(words: &'w [String], name: &[u8]) -> Option<&'w [u8]>
    ensures some { IfSome result (λ value.
        IsOption name.now value.now (map string_bytes words.now)) }
    ensures each { (value : List ℕ) → IsOption name.now value (map string_bytes words.now) →
        MatchOption result ⊥ (λ found. found.now ≡ value) }
{
    let (value, count) = option_value(words, name)?;
    if count == words.len() {
        Some(value)
    } else {
        None
    }
}
