//! How a version's text is cut into pieces: at dots, at hyphens and between digits and other bytes.

ghost use Rattle.std.specs.Prelude.{◌≡◌, ◌≤◌, length};
ghost use Rattle.versions.specs.Pieces.{changes_after, front, is_change, is_mark, next_mark, width, Leads};

/// What stands before a piece of a version: a dot, a hyphen, or the change between a digit and another byte. POM
/// Reference, "Version Order Specification".
#[derive(Clone, Copy, PartialEq, Eq)]
pub enum Mark {
    Dot,
    Hyphen,
    Change,
}

/// The first piece of a text: its length, and where the next begins, if there is one, and after what.
#[derive(Clone, Copy)]
pub(crate) struct First {
    pub(crate) len: usize,
    pub(crate) to: usize,
    pub(crate) next: Option<Mark>,
}

fn is_mark(b: u8) -> bool
    ensures { result ≡ is_mark b }
{
    b == b'.' || b == b'-'
}

fn is_change(a: u8, b: u8) -> bool
    ensures { result ≡ is_change a b }
{
    a.is_ascii_digit() != b.is_ascii_digit()
}

// Whether a version splits between a byte and what follows it, though no dot or hyphen stands there.
fn changes_after(b: u8, text: &[u8]) -> bool
    ensures { result ≡ changes_after b text.now }
{
    match text {
        [] => false,
        [c, ..] => !is_mark(*c) && is_change(b, *c),
    }
}

// How long the first piece of a text is.
fn front(text: &[u8]) -> usize
    ensures value { result ≡ front text.now }
    ensures within { result ≤ length text.now }
{
    for at in 0..text.len() {
        if is_mark(text[at]) {
            return at;
        }
        if changes_after(text[at], &text[at + 1..]) {
            return at + 1;
        }
    }
    text.len()
}

// What stands before the next piece, where a piece ends before this text.
fn next_mark(text: &[u8]) -> Option<Mark>
    ensures { result ≡ next_mark text.now }
{
    match text {
        [] => None,
        [b'.', ..] => Some(Mark::Dot),
        [b'-', ..] => Some(Mark::Hyphen),
        _ => Some(Mark::Change),
    }
}

// How many bytes a mark has.
fn width(mark: Option<Mark>) -> usize
    ensures { result ≡ width mark }
{
    match mark {
        None | Some(Mark::Change) => 0,
        Some(Mark::Dot | Mark::Hyphen) => 1,
    }
}

/// The first piece of a text. Costs its length.
#[tactic(auto, using(crate::proofs::Splits::leads))]
pub(crate) fn first_piece(text: &[u8]) -> First
    ensures { Leads text.now result }
{
    let len = front(text);
    let next = next_mark(&text[len..]);
    First {
        len,
        to: len + width(next),
        next,
    }
}
