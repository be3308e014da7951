//! The reader of the next piece of a text, but for plain character data.

ghost use Rattle.std.specs.Prelude.{◌≡◌, ◌++◌, false, codes, option_map};
ghost use Rattle.std.specs.Str.{chars};
ghost use Rattle.pom_text.specs.Reads.{begins, end_of, marked_of, passed_of, piece_of, section_of, tag_end, tag_of};
ghost use Rattle.pom_text.specs.Lent.{is_run};
ghost use Rattle.pom_text.specs.Runs.{said_next, said_tag};

use crate::attribute_words::behind_attributes;
use crate::cuts::{after, begins_name, name_of, skip_space, up_to};
use crate::part::{Part, Tag};
use crate::reference::reference_of;

// The end of a start tag or an empty tag.
#[tactic(auto, unfolding(crate::specs::Reads::tag_end))]
fn tag_end<'a>(tag: Tag<'a>, text: &'a str) -> Option<(Part<'a>, &'a str)>
    ensures { option_map said_next result ≡ tag_end (said_tag tag.entry) (chars text.now) }
{
    if let Some(rest) = after(text, b">") {
        return Some((Part::Start(tag), rest));
    }
    let rest = after(text, b"/>")?;
    Some((Part::Empty(tag), rest))
}

// A start tag or an empty tag after its `<`. It stands in its caller, since what it answers is large.
#[inline(always)]
#[tactic(auto, unfolding(crate::specs::Reads::tag_of))]
fn tag_of(text: &str) -> Option<(Part<'_>, &str)>
    ensures { option_map said_next result ≡ tag_of (chars text.now) }
{
    let (name, attributes) = name_of(text)?;
    tag_end(
        Tag { name, attributes },
        skip_space(behind_attributes(attributes)),
    )
}

// An end tag after its `</`.
#[tactic(auto, unfolding(crate::specs::Reads::end_of))]
fn end_of(text: &str) -> Option<(Part<'_>, &str)>
    ensures { option_map said_next result ≡ end_of (chars text.now) }
{
    let (name, rest) = name_of(text)?;
    let rest = after(skip_space(rest), b">")?;
    Some((Part::End(name), rest))
}

// A comment after its opening.
#[tactic(auto, unfolding(crate::specs::Reads::passed_of))]
fn comment_of(text: &str) -> Option<(Part<'_>, &str)>
    ensures { option_map said_next result ≡ passed_of (codes "-->") (chars text.now) }
{
    let (_, rest) = up_to(text, b"-->")?;
    Some((Part::Passed, rest))
}

// An instruction after its opening.
#[tactic(auto, unfolding(crate::specs::Reads::passed_of))]
fn instruction_of(text: &str) -> Option<(Part<'_>, &str)>
    ensures { option_map said_next result ≡ passed_of (codes "?>") (chars text.now) }
{
    let (_, rest) = up_to(text, b"?>")?;
    Some((Part::Passed, rest))
}

// A CDATA part after its opening.
#[tactic(auto, unfolding(crate::specs::Reads::section_of))]
fn section_of(text: &str) -> Option<(Part<'_>, &str)>
    ensures { option_map said_next result ≡ section_of (chars text.now) }
{
    let (inside, rest) = up_to(text, b"]]>")?;
    Some((Part::Section(inside), rest))
}

// What stands after a `<`. Most are tags, so these are looked for first.
#[tactic(auto, using(crate::proofs::Pieces::tag_marked, crate::proofs::Pieces::slash_marked), unfolding(crate::specs::Reads::marked_of))]
fn marked_of(text: &str) -> Option<(Part<'_>, &str)>
    ensures { option_map said_next result ≡ marked_of (chars text.now) }
{
    if begins_name(text) {
        return tag_of(text);
    }
    if let Some(rest) = after(text, b"/") {
        return end_of(rest);
    }
    if let Some(rest) = after(text, b"!--") {
        return comment_of(rest);
    }
    if let Some(rest) = after(text, b"![CDATA[") {
        return section_of(rest);
    }
    match after(text, b"?") {
        Some(rest) => instruction_of(rest),
        None => tag_of(text),
    }
}

// A reference after its `&`.
#[tactic(auto, unfolding(crate::specs::Reads::piece_of))]
fn reference_part(text: &str) -> Option<(Part<'_>, &str)>
    ensures { option_map said_next result ≡ piece_of (codes "&" ++ chars text.now) }
{
    let (c, rest) = reference_of(text)?;
    Some((Part::Reference(c), rest))
}

/// The piece at the front of a text that doesn't begin with a run, and what follows. Costs what the piece has.
#[tactic(auto, using(crate::proofs::Firsts::marked, crate::proofs::Firsts::referred_to, crate::proofs::Firsts::returned, crate::proofs::Firsts::nothing))]
pub(crate) fn piece_of(text: &str) -> Option<(Part<'_>, &str)>
    requires { begins is_run (chars text.now) ≡ false }
    ensures { option_map said_next result ≡ piece_of (chars text.now) }
{
    if let Some(rest) = after(text, b"<") {
        return marked_of(rest);
    }
    if let Some(rest) = after(text, b"&") {
        return reference_part(rest);
    }
    let rest = after(text, b"\r")?;
    Some((Part::Return, rest))
}
