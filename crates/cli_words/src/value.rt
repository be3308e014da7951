//! Reads the parts of values: numbers, items of lists, and properties.

ghost use Rattle.std.specs.Prelude.{◌≡◌, ◌≤◌, ◌==◌, true, false, length, map, IfOk};
ghost use Rattle.std.specs.Option.{MatchOption};
ghost use Rattle.std.specs.Str.{is_utf8};
ghost use Rattle.std.specs.List.{list_all, slice_split};
ghost use Rattle.std.specs.Char.{is_ascii_digit};
ghost use Rattle.cli_words.specs.Options.{digit, digits_value, is_bad_selector, items, name_of, number, trimmed, value_of};

use std::alloc::{AllocError, Global};

fn are_digits(word: &[u8]) -> bool
    ensures { result ≡ list_all is_ascii_digit word.now }
{
    word.iter().all(|b| b.is_ascii_digit())
}

fn digit(b: u8) -> u32
    ensures { result ≡ digit b }
{
    u32::from(b.saturating_sub(b'0'))
}

// The value of one to four digits.
fn digits_value(word: &[u8]) -> Option<u32>
    ensures { result ≡ digits_value word.now }
{
    match word {
        [a] => Some(digit(*a)),
        [a, b] => Some(digit(*a) * 10 + digit(*b)),
        [a, b, c] => Some(digit(*a) * 100 + digit(*b) * 10 + digit(*c)),
        [a, b, c, d] => Some(digit(*a) * 1000 + digit(*b) * 100 + digit(*c) * 10 + digit(*d)),
        _ => None,
    }
}

/// A number of one to four decimal digits without a leading zero. Costs the word's length.
#[tactic(auto, unfolding(crate::specs::Options::number))]
pub(crate) fn number(word: &[u8]) -> Option<u32>
    ensures { result ≡ number word.now }
{
    if are_digits(word) && word.first() != Some(&b'0') {
        digits_value(word)
    } else {
        None
    }
}

// The texts between commas.
fn parts<'a>(alloc: Global, value: &'a str) -> Result<Vec<&'a str>, AllocError>
    ensures { IfOk result (λ found.
        map (λ x. x.now) found.items ≡ slice_split (λ b. b == 44) value.now) }
{
    value.split(',').collect(alloc)
}

/// A text without the white space round it. Costs the white space's length.
pub(crate) fn trimmed(text: &str) -> &str
    ensures { result.now ≡ trimmed text.now }
{
    text.trim_ascii()
}

/// The items of a list: the texts between commas without the white space round them, where anything is left. Costs the text's length.
pub(crate) fn items<'a>(alloc: Global, value: &'a str) -> Result<Vec<&'a str>, AllocError>
    ensures { IfOk result (λ found. map (λ x. x.now) found.items ≡ items value.now) }
{
    let mut items = Vec::new(alloc);
    let parts = parts(alloc, value)?;
    for part in &parts {
        let item = trimmed(part);
        if !item.is_empty() {
            items.push(item)?;
        }
    }
    Ok(items)
}

/// Whether a text is no selector: empty, or one that would leave a module out. Constant time.
pub(crate) fn is_bad_selector(selector: &str) -> bool
    ensures { result ≡ is_bad_selector selector.now }
{
    match selector.as_bytes() {
        [] => true,
        [b, ..] => *b == b'!' || *b == b'-' || *b == b'+',
    }
}

// Where the first `=` stands, or the length.
fn equals_place(word: &[u8]) -> usize
    ensures value { result ≡ length (name_of word.now) }
    ensures within { result ≤ length word.now }
{
    for at in 0..word.len() {
        if word[at] == b'=' {
            return at;
        }
    }
    word.len()
}

/// The name that a definition gives a value: what stands before the first `=`. Costs its length.
#[tactic(auto, using(crate::proofs::Texts::name_is, crate::proofs::Texts::name_boundary))]
pub(crate) fn name_of(word: &str) -> &str
    ensures { result.now ≡ name_of word.now }
{
    &word[..equals_place(word.as_bytes())]
}

/// The value: what stands after the first `=`, and `true` where there is none. Costs the name's length.
#[tactic(auto, using(crate::proofs::Texts::value_is, crate::proofs::Texts::value_is_true, crate::proofs::Texts::value_boundary))]
pub(crate) fn value_of(word: &str) -> &str
    ensures { result.now ≡ value_of word.now }
{
    let place = equals_place(word.as_bytes());
    if place == word.len() {
        return "true";
    }
    &word[place + 1..]
}

/// A word as a text, where it is UTF-8. Costs the word's length.
pub(crate) fn text_of(word: &[u8]) -> Option<&str>
    ensures { MatchOption result (is_utf8 word.now ≡ false) (λ text. (text.now ≡ word.now) ×
        (is_utf8 word.now ≡ true)) }
{
    match std::str::from_utf8(word) {
        Ok(text) => Some(text),
        Err(_) => None,
    }
}
