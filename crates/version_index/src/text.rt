//! The text of an index.

ghost use Rattle.std.specs.Prelude.{◌≡◌, IfOk};
ghost use Rattle.version_index.specs.Texts.{fits_index, index_text, version_lines};

use crate::set::version_set;
use mvn_base::MOST_VERSIONS;
use mvn_shared::{Bytes, Mem, Text};
use std::alloc::Global;

/// The greatest number of bytes of an index. Project rule.
pub const MOST_INDEX: usize = 1_048_576;

/// A line for each of these versions, in their order. Costs its length.
pub(crate) fn version_lines(alloc: Global, versions: &[Text]) -> Mem<Bytes>
    ensures { IfOk result (λ bytes. bytes ≡ version_lines versions.now) }
{
    let mut text = Vec::new(alloc);
    for version in versions {
        text.extend_from_slice(version.as_bytes())?;
        text.push(b'\n')?;
    }
    Ok(Bytes::of(text))
}

/// The text of an index of these versions: each once, ascending by bytes, each ended by a line feed. It depends neither on their
/// order nor on how often each stands there. Costs what `version_set` does, and its length. Project rule.
pub fn index_text(alloc: Global, versions: &[Text]) -> Mem<Bytes>
    ensures { IfOk result (λ bytes. bytes ≡ index_text versions.now) }
{
    let set = version_set(alloc, versions)?;
    version_lines(alloc, set.as_slice())
}

/// Whether these versions may make an index: they are at most `MOST_VERSIONS` different ones, and its text has at most `MOST_INDEX`
/// bytes. Costs what `index_text` does. Project rule.
pub fn fits_index(alloc: Global, versions: &[Text]) -> Mem<bool>
    ensures { IfOk result (λ it. it ≡ fits_index versions.now) }
{
    let set = version_set(alloc, versions)?;
    if set.len() > MOST_VERSIONS {
        return Ok(false);
    }
    let text = version_lines(alloc, set.as_slice())?;
    Ok(text.len() <= MOST_INDEX)
}
