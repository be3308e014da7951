//! The law that the modules that are built are in the order that a sound plan wants.

ghost use Rattle.std.specs.Prelude.{ℕ, List, ◌≤◌};
ghost use Rattle.classpaths.specs.declared.resolution.Resolution as resolution;
ghost use Rattle.goal_types.specs.declared.goal.SourceFile as source;
ghost use Rattle.model_resolver.specs.declared.resolver.ProjectPom as pom;
ghost use Rattle.model_types.specs.declared.model.Model as model;
ghost use Rattle.plan_law.specs.Ready.{AreOrdered};
ghost use Rattle.module_plan.specs.declared.selected.SelectedModule as selected;
ghost use Rattle.reactor.specs.declared.modules.ReactorModules as reactor;
ghost use Rattle.built_modules.specs.Selected.{AreModules, AreSelected};

/// A law of the modules that are built: they are in the order that a sound plan wants, so that `planned_is_sound` of `plan_law` holds of
/// their plan. No two have the same coordinates; each stands after what it is built with. It does nothing when it runs.
pub fn built_are_ordered()
    ensures { (workers : ℕ) (poms : List pom.ProjectPom) (models : List model.Model)
        (resolutions : List resolution.Resolution) (built : reactor.ReactorModules)
        (sources : List (List source.SourceFile)) (modules : List selected.SelectedModule)
        → (1 ≤ workers) × (workers ≤ 16) → AreSelected models resolutions built
        → AreModules poms models resolutions built sources modules
        → AreOrdered workers modules }
{}
