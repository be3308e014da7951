//! The modes in which a lock on a name may be held.

/// How a lock on a name is held: by many who read, or by one who writes. Resolver, "Named Locks".
#[derive(Clone, Copy, PartialEq, Eq)]
pub enum Mode {
    Shared,
    Exclusive,
}
