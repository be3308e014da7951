//! A law of the place at which a text that is no requirement is refused.

ghost use Rattle.std.specs.Prelude.{◌≡◌, ◌⊎◌, ℕ, ◌+◌, ◌<◌, ◌++◌, List, take, length, Err};
ghost use Rattle.versions.specs.Requirements.{requirement};
ghost use Rattle.versions.specs.Places.{GoesOn, EndsCrossed};

/// A law of the place of a refused requirement: whatever stands after the byte at it, the text is refused there; and
/// the text up to it can be gone on with to a requirement, unless it ends in an interval whose bounds cross so far. It
/// does nothing when it runs.
pub fn refused_place()
    ensures no_further { (text rest : List ℕ) (place : ℕ) → requirement text ≡ Err place
        → place < length text → requirement (take (place + 1) text ++ rest) ≡ Err place }
    ensures so_far { (text : List ℕ) (place : ℕ) → requirement text ≡ Err place
        → GoesOn (take place text) ⊎ EndsCrossed (take place text) }
{}
