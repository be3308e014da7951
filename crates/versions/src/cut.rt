//! Tokens of a version as cuts of its text, and the order of two tokens.

ghost use Rattle.std.specs.Prelude.{◌≡◌, take, drop};
ghost use Rattle.std.specs.Cmp.Lexicographic.{slice_cmp};
ghost use Rattle.versions.specs.Cuts.{cut_token};
ghost use Rattle.versions.specs.Order.{digit_count, token_cmp};
ghost use Rattle.versions.specs.Tokens.{is_null};

use crate::kind::Kind;
use std::cmp::Ordering;

/// A token of a version: its kind, and where its content lies in the text.
#[derive(Clone, Copy)]
pub(crate) struct Cut {
    pub(crate) kind: Kind,
    pub(crate) start: usize,
    pub(crate) len: usize,
}

// Where a cut's content lies.
fn content(text: &[u8], cut: Cut) -> &[u8]
    ensures { result.now ≡ take cut.len (drop cut.start text.now) }
{
    let rest = text.get(cut.start..).unwrap_or(&[]);
    rest.get(..cut.len).unwrap_or(rest)
}

/// Whether a token says nothing: a number zero or the empty qualifier. Constant time.
pub(crate) fn is_null(text: &[u8], cut: Cut) -> bool
    ensures { result ≡ is_null (cut_token text.now cut) }
{
    match cut.kind {
        Kind::Release => true,
        Kind::HyphenNumber | Kind::DotNumber => content(text, cut).is_empty(),
        _ => false,
    }
}

// How many digits a number has.
fn digit_count(text: &[u8], cut: Cut) -> usize
    ensures { result ≡ digit_count (cut_token text.now cut) }
{
    match cut.kind {
        Kind::HyphenNumber | Kind::DotNumber => content(text, cut).len(),
        _ => 0,
    }
}

/// How two tokens compare: by rank; numbers by the count of their digits and then by these; qualifiers by their bytes.
/// Costs the lesser of their lengths.
#[tactic(auto, unfolding(crate::specs::Order::token_cmp))]
pub(crate) fn compare(text: &[u8], cut: Cut, other_text: &[u8], other: Cut) -> Ordering
    ensures { result ≡ token_cmp (cut_token text.now cut) (cut_token other_text.now other) }
{
    cut.kind
        .rank()
        .cmp(&other.kind.rank())
        .then(digit_count(text, cut).cmp(&digit_count(other_text, other)))
        .then(content(text, cut).cmp(content(other_text, other)))
}
