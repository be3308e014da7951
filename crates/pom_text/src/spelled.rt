//! Texts of a document, with its line ends as XML 1.0, section 2.11, normalizes them.

ghost use Rattle.std.specs.Prelude.{◌≡◌, ◌++◌, IfOk, OnOk};
ghost use Rattle.std.specs.Str.{chars, encode_utf8_all};
ghost use Rattle.pom_text.specs.Runs.{line_bytes};
ghost use Rattle.pom_text.specs.Lent.{unfed};

use crate::cuts::{after, up_to};
use mvn_shared::{Mem, Text};
use std::alloc::Global;

// A copy of a text, told by its characters.
#[tactic(auto, using(crate::proofs::Bytes::whole_again))]
pub(crate) fn text_of(alloc: Global, text: &str) -> Mem<Text>
    ensures { IfOk result (λ copy. copy ≡ encode_utf8_all (chars text.now)) }
{
    Text::from_str(alloc, text)
}

// A text without the line feed at its front, where a carriage return stands before it.
#[tactic(auto, using(crate::proofs::Firsts::unreturned, crate::proofs::Firsts::with_feed, crate::proofs::Firsts::without_feed))]
pub(crate) fn behind_feed(returned: bool, text: &str) -> &str
    ensures { chars result.now ≡ unfed returned (chars text.now) }
{
    if !returned {
        return text;
    }
    match after(text, b"\n") {
        Some(rest) => rest,
        None => text,
    }
}

// A text more, each of its line ends as a line feed.
pub(crate) fn push_lines(text: &mut Text, more: &str) -> Mem<()>
    ensures { OnOk result (text.new ≡ text.old ++ line_bytes more.now) }
{
    let mut returned = false;
    let mut rest = more;
    while let Some((line, behind)) = up_to(rest, b"\r") {
        text.push_str(behind_feed(returned, line))?;
        text.push_str("\n")?;
        returned = true;
        rest = behind;
    }
    text.push_str(behind_feed(returned, rest))?;
    Ok(())
}
