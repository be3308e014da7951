//! A law of the grammar: the reader gives a list of elements exactly where the grammar does.

ghost use Rattle.std.specs.Prelude.{◌≡◌, ◌↔◌, ℕ, List, Ok, Err};
ghost use Rattle.mvn_base.specs.declared.rule.Rule.{Rule};
ghost use Rattle.pom_text.specs.declared.node.Node.{Node};
ghost use Rattle.pom_text.specs.Answers.{answer};
ghost use Rattle.pom_text.specs.Texts.{IsText, Refuses, SpellsElements};

/// A law of the definitions: the answer that the reader comes to, as a function, is a list of elements exactly where
/// the bytes are a POM text of these, and a refusal exactly where they are refused so. Bytes spell one list of elements
/// at most, are refused by one rule at one place at most, and are not both a POM text and refused. It does nothing when
/// it runs.
pub fn one_reading()
    ensures text { (bytes : List ℕ) (nodes : List Node) →
        (answer bytes ≡ Ok nodes) ↔ IsText bytes nodes }
    ensures refusal { (bytes : List ℕ) (rule : Rule) (place : ℕ) →
        (answer bytes ≡ Err (rule, place)) ↔ Refuses bytes rule place }
    ensures elements { (bytes : List ℕ) (one other : List Node) → SpellsElements bytes one →
        SpellsElements bytes other → one ≡ other }
    ensures rule { (bytes : List ℕ) (one other : Rule) (place at : ℕ) → Refuses bytes one place →
        Refuses bytes other at → one ≡ other }
    ensures place { (bytes : List ℕ) (one other : Rule) (place at : ℕ) → Refuses bytes one place →
        Refuses bytes other at → place ≡ at }
    ensures apart { (bytes : List ℕ) (nodes : List Node) (rule : Rule) (place : ℕ) →
        IsText bytes nodes → Refuses bytes rule place → ⊥ }
{}
