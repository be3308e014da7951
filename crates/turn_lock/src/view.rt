//! What a pass of the turn lock knows, as a value of contracts alone.

use mvn_shared::List;

/// What a pass knows: the fixed part and the number of workers, its number with its reach (the workers from its
/// number on, below `reach`, for which it alone may add entries), its weight, the log that it has seen, logs that
/// this begins with, the module that its worker has open there, and the log of the turn that it has out. A pass that
/// was joined to another is spent and knows nothing. No value of it is made. Project rule.
pub struct View<F, E> {
    pub fixed: Option<F>,
    pub workers: u32,
    pub number: u32,
    pub reach: u32,
    pub weight: u32,
    pub seen: List<E>,
    pub parts: List<List<E>>,
    pub owed: Option<u32>,
    pub turn: Option<List<E>>,
    pub spent: bool,
}
