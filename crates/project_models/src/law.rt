//! A law of a project's modules: they are the POMs that it lists, each with its effective model.

ghost use Rattle.std.specs.Prelude.{◌≡◌, Ok};
ghost use Rattle.mvn_shared.specs.Files.{Files};
ghost use Rattle.pom_source.specs.declared.found.Given as givens;
ghost use Rattle.project_models.specs.Models.{Modules, project_models};
ghost use Rattle.project_models.specs.Projects.{AreOfProject};

/// A law of `project_models`: its POMs are those of a project, `pom.xml` the first, in the order in which they are
/// listed, 1,024 at most; each model is the effective model of the POM at its place; and no two have the same
/// coordinates. It does nothing when it runs. Guide to Working with Multiple Modules.
pub fn modules_are_the_projects()
    ensures { (tree local remote : Files) (given : givens.Given) (modules : Modules)
        → project_models tree local remote given ≡ Ok modules
        → AreOfProject tree local remote given modules }
{}
