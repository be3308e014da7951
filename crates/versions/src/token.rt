//! The token that a piece of a version is: a number or a qualifier.

ghost use Rattle.std.specs.Prelude.{◌≡◌, ◌+◌, ◌≤◌, nat_eq, codes, length, take, drop};
ghost use Rattle.std.specs.Cmp.Lexicographic.{pointwise};
ghost use Rattle.versions.specs.Cuts.{cut_token};
ghost use Rattle.versions.specs.Tokens.{is_number, is_word, number_kind, qualifier_kind, token, zero_count};

use crate::cut::Cut;
use crate::kind::Kind;
use crate::piece::Mark;

// Whether a piece is a number; an empty one is the number zero.
fn is_number(bytes: &[u8]) -> bool
    ensures { result ≡ is_number bytes.now }
{
    match bytes {
        [] => true,
        [b, ..] => b.is_ascii_digit(),
    }
}

fn is_word(word: &[u8], name: &str) -> bool
    ensures { result ≡ is_word word.now name.now }
{
    word == name.as_bytes()
}

// The kind of a qualifier in lower case.
#[tactic(auto, unfolding(crate::specs::Tokens::qualifier_kind))]
fn qualifier_kind(before_digit: bool, word: &[u8]) -> Kind
    ensures { result ≡ qualifier_kind before_digit word.now }
{
    if is_word(word, "alpha") || (before_digit && is_word(word, "a")) {
        Kind::Alpha
    } else if is_word(word, "beta") || (before_digit && is_word(word, "b")) {
        Kind::Beta
    } else if is_word(word, "milestone") || (before_digit && is_word(word, "m")) {
        Kind::Milestone
    } else if is_word(word, "rc") || is_word(word, "cr") {
        Kind::ReleaseCandidate
    } else if is_word(word, "snapshot") {
        Kind::Snapshot
    } else if is_word(word, "final") || is_word(word, "ga") || is_word(word, "release") {
        Kind::Release
    } else if is_word(word, "sp") {
        Kind::ServicePack
    } else {
        Kind::Qualifier
    }
}

fn number_kind(mark: Mark) -> Kind
    ensures { result ≡ number_kind mark }
{
    match mark {
        Mark::Dot => Kind::DotNumber,
        Mark::Hyphen | Mark::Change => Kind::HyphenNumber,
    }
}

// How many zeros lead a number.
fn zero_count(digits: &[u8]) -> usize
    ensures value { result ≡ zero_count digits.now }
    ensures within { result ≤ length digits.now }
{
    for at in 0..digits.len() {
        if digits[at] != b'0' {
            return at;
        }
    }
    digits.len()
}

/// The token of the piece that stands at this place of a text in lower case. Costs the piece's length.
#[tactic(auto, using(crate::proofs::Numbers::digits_in), unfolding(crate::specs::Tokens::token))]
pub(crate) fn cut(text: &[u8], start: usize, len: usize, mark: Mark, before_digit: bool) -> Cut
    requires within { start + len ≤ length text.now }
    ensures { cut_token text.now result
        ≡ token before_digit (record { mark = mark; bytes = take len (drop start text.now) }) }
{
    let bytes = &text[start..start + len];
    if is_number(bytes) {
        let zeros = zero_count(bytes);
        return Cut {
            kind: number_kind(mark),
            start: start + zeros,
            len: len - zeros,
        };
    }
    let kind = qualifier_kind(before_digit, bytes);
    let len = if kind == Kind::Qualifier { len } else { 0 };
    Cut { kind, start, len }
}
