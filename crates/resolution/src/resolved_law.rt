//! A law of resolution: the same libraries and declarations have one answer.

ghost use Rattle.std.specs.Prelude.{◌≡◌, ℕ, List, Ok, Err};
ghost use Rattle.classpaths.specs.declared.resolution.Resolution.{Resolution};
ghost use Rattle.mediation.specs.Libraries.{Libraries, graph_of};
ghost use Rattle.mediation.specs.Rows.{IsWhole};
ghost use Rattle.mediation.specs.declared.fault.MediationFault.TheVariants.{Refused};
ghost use Rattle.mediation.specs.declared.winner.Winner.{Winner};
ghost use Rattle.model_types.specs.declared.dependency.Dependency.{Dependency};
ghost use Rattle.mvn_base.specs.declared.key.Key.{Key};
ghost use Rattle.mvn_base.specs.declared.rule.Rule.{Rule};
ghost use Rattle.resolution.specs.Resolved.{Mediates};

/// A law of dependency mediation: over the same libraries, a project's declarations and what it manages have one
/// answer. The winners are one list; so are their scopes, their order and the notes; no project is both resolved and
/// refused; and a refusal has one rule and one place. Does nothing. Introduction to the Dependency Mechanism.
pub fn one_resolution()
    ensures winners { (libraries : Libraries) (managed : List (Key × Dependency))
        (direct : List Dependency) (one other : List Winner)
        → IsWhole libraries (graph_of libraries managed direct) one
        → IsWhole libraries (graph_of libraries managed direct) other → one ≡ other }
    ensures one { (libraries : Libraries) (managed : List (Key × Dependency))
        (direct : List Dependency) (one other : Resolution)
        → Mediates libraries managed direct (Ok one)
        → Mediates libraries managed direct (Ok other) → one ≡ other }
    ensures apart { (libraries : Libraries) (managed : List (Key × Dependency))
        (direct : List Dependency) (resolution : Resolution) (rule : Rule) (place : List ℕ)
        → Mediates libraries managed direct (Ok resolution)
        → Mediates libraries managed direct (Err (Refused rule place)) → ⊥ }
    ensures refused { (libraries : Libraries) (managed : List (Key × Dependency))
        (direct : List Dependency) (rule other_rule : Rule) (place other_place : List ℕ)
        → Mediates libraries managed direct (Err (Refused rule place))
        → Mediates libraries managed direct (Err (Refused other_rule other_place))
        → (rule ≡ other_rule) × (place ≡ other_place) }
{}
