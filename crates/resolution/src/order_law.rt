//! A law of the preorder: no place is lost.

ghost use Rattle.std.specs.Prelude.{◌<◌, ℕ, Option, Contains, length};
ghost use Rattle.std.specs.Prelude.{List as Items};
ghost use Rattle.resolution.specs.Preorder.{Ascends, preorder};

/// The order of a forest has each of its places. It does nothing when it runs. Project rule.
pub fn no_place_lost()
    ensures { (above : Items (Option ℕ)) (place : ℕ) → Ascends above → place < length above
        → Contains (preorder above) place }
{}
