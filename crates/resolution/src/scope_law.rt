//! Laws of scopes: a place has one widest scope, and an example of two walks to one place.

ghost use Rattle.std.specs.Prelude.{◌≡◌, ℕ, Option};
ghost use Rattle.std.specs.Prelude.{List as Items};
ghost use Rattle.collector.specs.declared.scope.Scope.{Scope};
ghost use Rattle.collector.specs.declared.scope.Scope.TheVariants.{Runtime, Test};
ghost use Rattle.resolution.specs.Example.{below, starts};
ghost use Rattle.resolution.specs.Walks.{IsWidest, Walk};
ghost use Rattle.resolution.specs.declared.link.Link.{Link};

/// A place has one widest scope, or none. It does nothing when it runs. Project rule.
pub fn one_widest_scope()
    ensures { (starts : Items Link) (below : Items (Items Link)) (place : ℕ) (a b : Option Scope)
        → IsWidest starts below place a → IsWidest starts below place b → a ≡ b }
{}

/// An example: a project needs `near`, and `late` for tests. Both need `base`, and `near` needs it at run time alone.
/// So one walk brings `base` at run time, and one for tests. Introduction to the Dependency Mechanism, "Dependency
/// Scope".
pub fn two_walks_to_one_place()
    ensures runtime { Walk starts below Runtime 2 }
    ensures test { Walk starts below Test 2 }
{}
