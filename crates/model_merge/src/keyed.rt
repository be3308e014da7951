//! `Keyed` and `Item`: items that a key tells apart in their list.

ghost use Rattle.std.specs.Prelude.{◌≡◌, IfOk};

use mvn_base::Key;
use mvn_shared::{Mem, Shared};
use std::alloc::Global;

/// An item that is told apart from others of its list by a key. A key of fewer than four parts leaves the last ones
/// empty.
pub trait Keyed: Sized + Drop {
    ghost use Rattle.mvn_base.specs.declared.key.Key.{Key};

    /// What it is told apart by.
    ghost key_of: { Self → Key };

    fn key(&self, alloc: Global) -> Mem<Key>
        ensures { IfOk result (λ key. key ≡ key_of self.now) };
}

/// An item of a list that is joined with others by keys.
pub trait Item: Keyed {
    /// A copy of the item.
    fn copy(&self) -> Mem<Self>
        ensures { IfOk result (λ copy. copy ≡ self.now) };
}

/// What is shared has the key of its value.
impl<T: Keyed> Keyed for Shared<T> {
    ghost key_of = { T.key_of };

    fn key(&self, alloc: Global) -> Mem<Key> {
        self.value().key(alloc)
    }
}

/// What is shared isn't copied, but shared once more.
impl<T: Keyed> Item for Shared<T> {
    fn copy(&self) -> Mem<Shared<T>> {
        self.share()
    }
}
