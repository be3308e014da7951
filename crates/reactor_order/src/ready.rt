//! Puts modules into the set of those that can follow, and takes the earliest out.

ghost use Rattle.std.specs.Prelude.{◌≡◌, ℕ, ◌==◌, ◌||◌, OnOk};
ghost use Rattle.reactor_order.specs.Ready.{is_in, TakesLeast};

use mvn_shared::Mem;
use std::collections::BTreeSet;

/// Puts a module in. Costs the logarithm of the number of modules.
pub(crate) fn put(ready: &mut BTreeSet<u32>, m: u32) -> Mem<()>
    ensures { OnOk result ((k : ℕ) → is_in ready.new k ≡ ((m == k) || is_in ready.old k)) }
{
    ready.insert(m)?;
    Ok(())
}

/// Takes the earliest out. Costs the logarithm of the number of modules.
pub(crate) fn take_least(ready: &mut BTreeSet<u32>) -> Option<u32>
    ensures { TakesLeast ready.old ready.new result }
{
    ready.pop_first()
}
