//! A bound as it is written in an interval, without the white space round it.

ghost use Rattle.std.specs.Prelude.{◌≡◌, IfOk};
ghost use Rattle.versions.specs.Requirements.{after_spaces, before_spaces, bound};

use crate::interval::Bound;
use crate::version::Version;
use mvn_shared::{Mem, Text};
use std::alloc::Global;

// Without the spaces at its front.
fn after_spaces(word: &str) -> &str
    ensures { result.now ≡ after_spaces word.now }
{
    let bytes = word.as_bytes();
    let mut at = 0;
    while at < bytes.len() && bytes[at] == b' ' {
        at += 1;
    }
    &word[at..]
}

// Without the spaces at its end.
fn before_spaces(word: &str) -> &str
    ensures { result.now ≡ before_spaces word.now }
{
    let bytes = word.as_bytes();
    let mut end = bytes.len();
    while end > 0 && bytes[end - 1] == b' ' {
        end -= 1;
    }
    &word[..end]
}

/// The bound that is written in an interval, if a version is. Costs its length.
pub(crate) fn bound(alloc: Global, inclusive: bool, word: &str) -> Mem<Option<Bound>>
    ensures { IfOk result (λ b. b ≡ bound inclusive word.now) }
{
    let version = before_spaces(after_spaces(word));
    if version.is_empty() {
        return Ok(None);
    }
    let text = Text::from_str(alloc, version)?;
    let version = Version::parse(alloc, &text)?;
    Ok(Some(Bound { version, inclusive }))
}
