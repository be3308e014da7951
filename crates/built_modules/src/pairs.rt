//! Joins two lists into a list of pairs.

ghost use Rattle.std.specs.Prelude.{◌≡◌, zip, IfOk};

use mvn_shared::{List, Mem};
use std::alloc::Global;

/// The items of two lists in pairs, as far as both go. Costs the items. Project rule.
pub(crate) fn zipped<A: Drop, B: Drop>(
    alloc: Global,
    left: List<A>,
    right: List<B>,
) -> Mem<List<(A, B)>>
    ensures { IfOk result (λ list. list ≡ zip left right) }
{
    let mut list = List::new(alloc);
    let mut others = right.into_vec().into_iter();
    for item in left.into_vec() {
        let Some(other) = others.next() else {
            return Ok(list);
        };
        list.push((item, other))?;
    }
    Ok(list)
}
