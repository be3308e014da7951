//! The law that the kept edges, and the selected modules, are the only ones that fit.

ghost use Rattle.std.specs.Prelude.{◌≡◌, ℕ, Bool, List, Option};
ghost use Rattle.reactor_order.specs.Graph.{Edges};
ghost use Rattle.reactor_order.specs.Keep.{Keeps};
ghost use Rattle.reactor_order.specs.Select.{Selects};

/// A law of the order of modules: which edges are kept has one answer, and so has which modules are built. Does nothing. Guide to
/// Working with Multiple Modules, "Reactor Sorting"; Maven's options `-pl`, `-am` and `-amd`.
pub fn one_solution()
    ensures kept { (firm soft one other : Edges) → Keeps firm soft one → Keeps firm soft other
        → one ≡ other }
    ensures selected { (order : List ℕ) (edges : Edges) (chosen : Option (List ℕ))
        (make dependents : Bool) (from : Option ℕ) (one other : List ℕ)
        → Selects order edges chosen make dependents from one
        → Selects order edges chosen make dependents from other → one ≡ other }
{}
