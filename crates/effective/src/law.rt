//! Laws of imports: an import stands for what the effective model of its coordinates manages.

ghost use Rattle.std.specs.Prelude.{◌≡◌, ◌≤◌, ℕ, List, Ok};
ghost use Rattle.mvn_base.specs.declared.gav.Gav as gavs;
ghost use Rattle.mvn_base.specs.declared.refusal.PomId as poms;
ghost use Rattle.model_types.specs.declared.dependency.Dependency as entries;
ghost use Rattle.model_types.specs.declared.model.Model as models;
ghost use Rattle.pom_source.specs.Worlds.{World};
ghost use Rattle.pom_source.specs.declared.found.Given as givens;
ghost use Rattle.effective.specs.Effective.{effective, imported};
ghost use Rattle.effective.specs.Imports.{AreAmong, IsPutTogether};

/// A law of effective models: an import stands for what the effective model of its coordinates manages, whoever imports
/// it. So the model of a POM is the filled POM with its plugins and with these entries in place of its imports. It does
/// nothing when it runs. Introduction to the Dependency Mechanism, "Importing Dependencies".
pub fn imports_are_models()
    ensures { (world : World) (given : givens.Given) (pom : poms.PomId) (model : models.Model)
        → effective world given pom ≡ Ok model → IsPutTogether world given pom model }
{}

/// A law of imports: what an import stands for it also stands for where more POMs may be built besides, and fewer are
/// being built. It does nothing when it runs. Introduction to the Dependency Mechanism, "Importing Dependencies"; the
/// limit is a project rule.
pub fn import_stays()
    ensures { (world : World) (given : givens.Given) (left more : ℕ) (pom other : poms.PomId)
        (building fewer : List poms.PomId) (gav : gavs.Gav) (managed : List entries.Dependency)
        → left ≤ more → AreAmong fewer building
        → imported world given left pom building gav ≡ Ok managed
        → imported world given more other fewer gav ≡ Ok managed }
{}
