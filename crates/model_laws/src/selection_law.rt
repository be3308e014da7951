//! The law that a plan is that of the selected modules, and two examples.

ghost use Rattle.std.specs.Prelude.{◌≡◌, [], ◌∷◌, None, codes};
ghost use Rattle.mvn_shared.specs.Files.{Files, file_at};
ghost use Rattle.cli_words.specs.declared.command_line.CommandLine as lines;
ghost use Rattle.model_types.specs.declared.model.Model as effective;
ghost use Rattle.pom_source.specs.declared.found.Given as givens;
ghost use Rattle.module_plan.specs.declared.selected.Planned as planned;
ghost use Rattle.build_plan.specs.Planning.{IsPlanned, IsRefused, built_models};
ghost use Rattle.model_laws.specs.Selected.{IsOfSelected, missing_pom};

/// A law of the plan of a build: it is that of the modules that the command line selects, in the order of the build. Does nothing. Guide
/// to Working with Multiple Modules, "Reactor Sorting" and "Command Line Options".
pub fn plan_is_of_the_selected()
    ensures { (tree local remote : Files) (given : givens.Given) (line : lines.CommandLine)
        (p : planned.Planned) → IsPlanned tree local remote given line p
        → IsOfSelected tree local remote given line p }
{}

/// An example: a folder without `pom.xml` is refused, whatever the repositories hold and whatever is asked for. Does nothing. Guide to
/// Working with Multiple Modules.
pub fn no_pom_is_refused()
    ensures { (tree local remote : Files) (given : givens.Given) (line : lines.CommandLine)
        → file_at tree (codes "pom.xml") ≡ None
        → IsRefused tree local remote given line missing_pom }
{}

/// An example: of the models of three modules, those of the numbers 2 and 0. Does nothing. Project rule.
pub fn models_by_number()
    ensures { (a b c : effective.Model) → built_models (a ∷ b ∷ c ∷ [])
        (record { numbers = 2 ∷ 0 ∷ []; upstreams = [] ∷ [] ∷ [] }) ≡ c ∷ a ∷ [] }
{}
