//! Counts how many upstreams each module still waits for.

ghost use Rattle.std.specs.Prelude.{◌≡◌, ℕ, ◌<◌, ◌≤◌, [], ◌∷◌, get_or, OnOk};
ghost use Rattle.reactor_order.specs.Waiting.{times, AreReleased};

use crate::ready::put;
use mvn_shared::Mem;
use std::collections::BTreeSet;

// A module waits for one upstream less, and is ready where it waits for none.
fn release_one(waits: &mut Vec<usize>, ready: &mut BTreeSet<u32>, m: u32) -> Mem<()>
    requires { 0 < get_or waits.old.items m 0 }
    ensures { OnOk result
        (AreReleased (m ∷ []) waits.old.items waits.new.items ready.old ready.new) }
{
    waits[m as usize] -= 1;
    if waits[m as usize] == 0 {
        put(ready, m)?;
    }
    Ok(())
}

/// These modules wait for one upstream less each time that they stand there. Costs their number, and the logarithm of the
/// number of modules for each that is ready then.
pub(crate) fn release(waits: &mut Vec<usize>, ready: &mut BTreeSet<u32>, downs: &[u32]) -> Mem<()>
    requires { (m : ℕ) → times m downs.now ≤ get_or waits.old.items m 0 }
    ensures { OnOk result
        (AreReleased downs.now waits.old.items waits.new.items ready.old ready.new) }
{
    for m in downs {
        release_one(waits, ready, *m)?;
    }
    Ok(())
}
