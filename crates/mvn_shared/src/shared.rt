//! `Shared`: a value with any number of owners, which contracts see as the value alone.

ghost use Rattle.std.specs.Prelude.{◌≡◌, IfOk};

use crate::memory::Mem;
use std::alloc::{AllocError, Global};
use std::marker::Model;
use std::ops::Deref;
use std::sync::Arc;

/// A value with any number of owners. Contracts see the value alone, so that what is shared equals what it shares.
#[derive(Drop)]
pub struct Shared<T> {
    inside: Arc<T>,
}

impl<T> Model for Shared<T> {
    ghost use Rattle.std.specs.Arc.{arc_value};

    ghost Value = { T };

    ghost coded = { T.code };

    ghost view = { λ shared. arc_value shared.inside };
}

impl<T: Drop> Shared<T> {
    /// A value with one owner. Costs one allocation.
    pub fn new(alloc: Global, value: T) -> Mem<Shared<T>>
        ensures { IfOk result (λ it. it ≡ value) }
    {
        let inside = Arc::new(alloc, value)?;
        Ok(Shared { inside })
    }

    /// The same value for one more owner, in constant time; nothing is copied. It fails only where the owners can't be
    /// counted any more.
    pub fn share(&self) -> Mem<Shared<T>>
        ensures { IfOk result (λ it. it ≡ self.now) }
    {
        let inside = Arc::try_clone(&self.inside)?;
        Ok(Shared { inside })
    }
}

impl<T> Shared<T> {
    /// The value. Constant time.
    pub fn value(&self) -> &T
        ensures { result.now ≡ self.now }
    {
        Deref::deref(&self.inside)
    }
}

impl<T> Deref for Shared<T> {
    type Target = T;

    ghost deref_gives = { λ shared value. value ≡ shared };

    fn deref(&self) -> &T
        ensures { result.now ≡ self.now }
    {
        self.value()
    }
}

impl<T: Drop> Clone for Shared<T> {
    ghost is_clone = { λ shared copy. copy ≡ shared };

    fn clone(&self) -> Result<Shared<T>, AllocError> {
        let inside = self.inside.clone()?;
        Ok(Shared { inside })
    }
}
