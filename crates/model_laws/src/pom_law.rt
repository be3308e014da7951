//! The law of what a POM is refused for, the first of all that is wrong, and two examples.

ghost use Rattle.std.specs.Prelude.{◌≡◌, ◌≤◌, ◌↔◌, ℕ, [], ◌∷◌, length, slice_get, Ok, Err};
ghost use Rattle.std.specs.Prelude.{List as Items};
ghost use Rattle.mvn_base.specs.declared.refusal.PomId.{PomId};
ghost use Rattle.mvn_base.specs.declared.refusal.Refusal.{Refusal};
ghost use Rattle.model_types.specs.declared.model.RawModel.{RawModel};
ghost use Rattle.pom_text.specs.declared.node.Node.{Node};
ghost use Rattle.pom_text.specs.Texts.{IsText};
ghost use Rattle.pom_model.specs.Fields.{model};
ghost use Rattle.pom_model.specs.Raw.{raw};
ghost use Rattle.model_laws.specs.Breaks.{HasNone, IsWrong, IsWrongAbove, Told};
ghost use Rattle.model_laws.specs.Examples.{at_one_place, configuration_merges, configured_again, group_again, no_artifact, no_version, three_wrong, two_wrong};
ghost use Rattle.model_laws.specs.Refused.{IsRefusedFor, refusal_of};

/// A law of the definitions: the text of a POM is refused exactly if something is wrong in it, and then for the least
/// of all that is wrong, by its place in the text and by the order of the rules at one place. It is read as the model
/// of its fields exactly if nothing is. The same holds of elements that no text spells, but for what is further in
/// than 64 levels; a text has nothing there. At one place one rule says one thing. It does nothing when it runs. POM
/// Reference; the order is a project rule.
pub fn first_refusal()
    ensures refused { (bytes : Items ℕ) (nodes : Items Node) (pom : PomId) (told : Refusal)
        → IsText bytes nodes → (raw nodes pom ≡ Err told) ↔ IsRefusedFor (IsWrong nodes) pom told }
    ensures read { (bytes : Items ℕ) (nodes : Items Node) (pom : PomId) (said : RawModel)
        → IsText bytes nodes → (raw nodes pom ≡ Ok said)
        ↔ (HasNone (IsWrong nodes) × (said ≡ model nodes pom (slice_get nodes 0))) }
    ensures any_refused { (nodes : Items Node) (pom : PomId) (told : Refusal)
        → (raw nodes pom ≡ Err told) ↔ IsRefusedFor (IsWrongAbove nodes) pom told }
    ensures any_read { (nodes : Items Node) (pom : PomId) (said : RawModel)
        → (raw nodes pom ≡ Ok said)
        ↔ (HasNone (IsWrongAbove nodes) × (said ≡ model nodes pom (slice_get nodes 0))) }
    ensures levels { (bytes : Items ℕ) (nodes : Items Node) (place : Items ℕ) (turn : ℕ)
        (told : Told) → IsText bytes nodes → IsWrong nodes place turn told → length place ≤ 64 }
    ensures one { (nodes : Items Node) (place : Items ℕ) (turn : ℕ) (one other : Told)
        → IsWrong nodes place turn one → IsWrong nodes place turn other → one ≡ other }
{}

/// An example: a project whose second `groupId` is its third element, with a dependency after it that has no
/// `artifactId`, and without a `version`. The second `groupId` begins first; without it the dependency is refused,
/// which ends before the project.
pub fn first_of_three()
    ensures group { IsWrong three_wrong (2 ∷ []) 0 group_again }
    ensures artifact { IsWrong three_wrong (3 ∷ 0 ∷ 1 ∷ []) 22 no_artifact }
    ensures version { IsWrong three_wrong (4 ∷ []) 4 no_version }
    ensures first { (pom : PomId) → raw three_wrong pom ≡ Err (refusal_of pom group_again) }
    ensures second { (pom : PomId) → raw two_wrong pom ≡ Err (refusal_of pom no_artifact) }
{}

/// An example: a second `configuration` of a plugin, with an attribute that says how it merges. Both are wrong where
/// it begins, and that it stands again is told.
pub fn first_at_one_place()
    ensures again { IsWrong at_one_place (0 ∷ 0 ∷ 0 ∷ 1 ∷ []) 0 configured_again }
    ensures merges { IsWrong at_one_place (0 ∷ 0 ∷ 0 ∷ 1 ∷ []) 1 configuration_merges }
    ensures first { (pom : PomId) → raw at_one_place pom ≡ Err (refusal_of pom configured_again) }
{}
