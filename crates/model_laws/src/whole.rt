//! Laws that in a model each key stands once.

ghost use Rattle.std.specs.Prelude.{◌≡◌, List, Ok};
ghost use Rattle.mvn_base.specs.declared.refusal.PomId as poms;
ghost use Rattle.model_types.specs.declared.build.BuildBase as bases;
ghost use Rattle.model_types.specs.declared.dependency.Dependency as dependencies;
ghost use Rattle.model_types.specs.declared.model.Model as wholes;
ghost use Rattle.model_types.specs.declared.model.RawModel as models;
ghost use Rattle.pom_source.specs.Worlds.{World};
ghost use Rattle.pom_source.specs.declared.found.Given as givens;
ghost use Rattle.model_steps.specs.Assembly.{model_of};
ghost use Rattle.model_steps.specs.Building.{built};
ghost use Rattle.effective.specs.Effective.{effective};
ghost use Rattle.model_laws.specs.Once.{HasKeysOnce};

/// A law of models that are put together from a filled POM, its plugins and what its imports manage: of dependencies, of managed
/// entries, of extensions, of plugins and of managed plugins each key has one, and so in each plugin have dependencies, executions
/// and goals, also where expressions made keys equal. POM Reference, "Properties"; project rule.
pub fn keys_stand_once()
    ensures { (filled : models.RawModel) (plugins : bases.BuildBase)
        → (imports : List (List dependencies.Dependency)) → built filled ≡ Ok plugins
        → HasKeysOnce (model_of filled plugins imports) }
{}

/// A law of effective models: each is put together so, and each key stands in its lists once. POM Reference, "Properties"; project rule.
pub fn effective_keys_stand_once()
    ensures { (world : World) (given : givens.Given) (pom : poms.PomId) (model : wholes.Model)
        → effective world given pom ≡ Ok model → HasKeysOnce model }
{}
