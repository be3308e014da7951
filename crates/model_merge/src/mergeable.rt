//! `Mergeable`: an item that is merged with the one of its key.

ghost use Rattle.std.specs.Prelude.{◌≡◌, IfOk};

use crate::Keyed;
use mvn_shared::{Mem, Shared};
use std::alloc::Global;

/// An item that can be merged with one of its key, which it builds on. Lists of such items share them.
pub trait Mergeable: Keyed {
    /// The item alone, where nothing has its key: each of its own lists has one item of each key.
    ghost settle: { Self → Self };

    fn settled(alloc: Global, item: &Shared<Self>) -> Mem<Shared<Self>>
        ensures { IfOk result (λ settled. settled ≡ settle item.now) };

    /// The child's, and then the parent's.
    ghost merge: { Self → Self → Self };

    fn merged(alloc: Global, child: &Self, parent: &Self) -> Mem<Self>
        ensures { IfOk result (λ merged. merged ≡ merge child.now parent.now) };
}
