//! The name of an index's lock.

ghost use Rattle.std.specs.Prelude.{◌≡◌, IfOk};
ghost use Rattle.version_index.specs.Names.{index_lock};

use mvn_shared::{Mem, Text};
use std::alloc::Global;

/// The name of the lock that covers an index: `metadata:group:artifact`. Costs its length. Project rule, by the parts of the
/// Resolver's GAV name mapper.
pub fn index_lock(alloc: Global, group: &Text, artifact: &Text) -> Mem<Text>
    ensures { IfOk result (λ name. name ≡ index_lock group.now artifact.now) }
{
    Ok(Text::of(format!(in alloc; "metadata:{group}:{artifact}")?))
}
