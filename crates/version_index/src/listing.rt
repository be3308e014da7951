//! Which versions a repository lists, and the index that a further one makes.

ghost use Rattle.std.specs.Prelude.{◌≡◌, IfOk};
ghost use Rattle.std.specs.Option.{option_copied};
ghost use Rattle.version_index.specs.Listed.{entered_of, listed_of};

use crate::reading::read_index;
use crate::set::{version_set, with_version};
use crate::text::version_lines;
use mvn_shared::{Bytes, List, Mem, Text};
use std::alloc::Global;

/// The versions that a repository lists of a library: those of its index, where what was found under that name is a valid one;
/// else the set of those that were known at the start. Costs reading the one, or sorting the others. Project rule.
pub fn listed(alloc: Global, found: Option<&[u8]>, start: &[Text]) -> Mem<List<Text>>
    ensures { IfOk result (λ versions. versions ≡ listed_of (option_copied found.entry) start.now) }
{
    if let Some(bytes) = found {
        if let Some(versions) = read_index(alloc, bytes)? {
            return Ok(versions);
        }
    }
    version_set(alloc, start)
}

/// The text of an index with a further version beside those that are listed. Costs what `listed` does, and one pass. Project rule.
pub fn entered_text(
    alloc: Global,
    found: Option<&[u8]>,
    start: &[Text],
    version: &Text,
) -> Mem<Bytes>
    ensures { IfOk result (λ bytes.
        bytes ≡ entered_of (option_copied found.entry) start.now version.now) }
{
    let before = listed(alloc, found, start)?;
    let versions = with_version(before, version)?;
    version_lines(alloc, versions.as_slice())
}
