//! The laws of plans, and an example of two modules.

ghost use Rattle.std.specs.Prelude.{◌≡◌, ℕ, [], ◌∷◌, Ok, codes, map, Contains};
ghost use Rattle.std.specs.Prelude.{List as Items};
ghost use Rattle.mvn_shared.specs.Files.{Files};
ghost use Rattle.mvn_base.specs.declared.phase.Phase as phases;
ghost use Rattle.mvn_base.specs.declared.phase.Phase.TheVariants.{Compile};
ghost use Rattle.goal_types.specs.declared.goal.Slot.TheVariants.{Main};
ghost use Rattle.build_core.specs.declared.plan.Entry as entry;
ghost use Rattle.build_core.specs.declared.plan.Origin.TheVariants.{File, Module};
ghost use Rattle.scripts.specs.Bounds.{total};
ghost use Rattle.event_core.specs.SoundPlans.{IsSoundPlan, TextsClimb, greatest_events};
ghost use Rattle.run_law.specs.Given.{IsPresent};
ghost use Rattle.module_plan.specs.Numbers.{ascending, fetch_names, numbers_of, plan_files, plan_names};
ghost use Rattle.module_plan.specs.Plans.{IsNumbered, entries_of, numbered};
ghost use Rattle.module_plan.specs.Uses.{gavs, used};
ghost use Rattle.module_plan.specs.declared.selected.Planned as planned;
ghost use Rattle.module_plan.specs.declared.selected.SelectedModule as selected;
ghost use Rattle.plan_law.specs.Example.{app, lib};
ghost use Rattle.plan_law.specs.Ready.{AreOrdered};

/// A law of plans: what is numbered of modules in the order of the build is a sound plan; its list of what is there says so of the local
/// repository at the start; and its bound of events is the sum over its modules. Does nothing. Project rule.
pub fn planned_is_sound()
    ensures numbered { (phase : phases.Phase) (workers : ℕ) (local : Files)
        (modules : Items selected.SelectedModule) (p : planned.Planned)
        → numbered phase workers local modules ≡ Ok p → IsNumbered phase workers modules p }
    ensures sound { (phase : phases.Phase) (workers : ℕ)
        (modules : Items selected.SelectedModule) (p : planned.Planned)
        → IsNumbered phase workers modules p → AreOrdered workers modules → IsSoundPlan p.plan }
    ensures present { (phase : phases.Phase) (workers : ℕ) (local : Files)
        (modules : Items selected.SelectedModule) (p : planned.Planned)
        → numbered phase workers local modules ≡ Ok p → IsPresent p.plan local }
    ensures events { (phase : phases.Phase) (workers : ℕ)
        (modules : Items selected.SelectedModule) (p : planned.Planned)
        → IsNumbered phase workers modules p
        → p.plan.events ≡ total greatest_events p.plan.modules }
{}

/// The names of a plan are the one list that ascends and has these texts. Does nothing. Resolver, "Named Locks".
pub fn one_ascending()
    ensures ascends { (texts : Items (Items ℕ)) → TextsClimb (ascending texts) }
    ensures one { (texts list : Items (Items ℕ)) → TextsClimb list
        → ((x : Items ℕ) → Contains list x → Contains texts x)
        → ((x : Items ℕ) → Contains texts x → Contains list x) → ascending texts ≡ list }
{}

/// An example: `app` depends on its sister `lib`, which is built before it, and on `web`, which is fetched. They are in the order of the
/// build; their plan locks the names of all three; its files are those of `lib`, those that are fetched for `app`, and those of `app`;
/// and the entries of `app` are the output of `lib` and the jar of `web`. Does nothing.
pub fn two_modules()
    ensures ordered { AreOrdered 2 (lib ∷ app ∷ []) }
    ensures names { plan_names Compile (lib ∷ app ∷ [])
        ≡ codes "artifact:g:app:1" ∷ codes "artifact:g:lib:1" ∷ codes "artifact:g:web:1" ∷ [] }
    ensures files { plan_files Compile (lib ∷ app ∷ [])
        ≡ codes "g/lib/1/lib-1.pom" ∷ codes "g/lib/1/lib-1.jar" ∷ codes "g/lib/1/lib-1-tests.jar"
        ∷ codes "g/lib/1/lib-1-sources.jar" ∷ codes "g/lib/1/lib-1-javadoc.jar"
        ∷ codes "g/web/1/web-1.pom" ∷ codes "g/web/1/web-1.jar"
        ∷ codes "g/app/1/app-1.pom" ∷ codes "g/app/1/app-1.jar" ∷ codes "g/app/1/app-1-tests.jar"
        ∷ codes "g/app/1/app-1-sources.jar" ∷ codes "g/app/1/app-1-javadoc.jar" ∷ [] }
    ensures fetch { numbers_of (plan_files Compile (lib ∷ app ∷ []))
        (fetch_names Compile (gavs (lib ∷ app ∷ [])) app) ≡ 5 ∷ 6 ∷ [] }
    ensures entries { map (λ (e : entry.Entry). e.origin) (entries_of (gavs (lib ∷ app ∷ []))
        (plan_files Compile (lib ∷ app ∷ [])) (used Compile app))
        ≡ Module 0 Main ∷ File 6 ∷ [] }
{}
