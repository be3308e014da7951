// The law that whole runs end as the sequential build does.
ghost use Rattle.std.specs.Prelude.{◌≡◌, ℕ, ◌<◌, List, length, slice_get, Some, true};
ghost use Rattle.build_core.specs.declared.ending.Ending.{Ending};
ghost use Rattle.build_core.specs.declared.ending.State.TheVariants.{Ended};
ghost use Rattle.build_core.specs.declared.plan.PlanModule.{PlanModule};
ghost use Rattle.event_core.specs.declared.entry.RunEntry.{RunEntry};
ghost use Rattle.event_core.specs.Runs.{answers_in, contents, outputs_in};
ghost use Rattle.run_law.specs.Closed.{state_at};
ghost use Rattle.run_law.specs.Given.{Answers, Extends, Given, IsWhole, is_kept, sequential, reaches, states_after};

/// A law: run confluence. A complete, quiet, fitting run ends as the sequential build, with any answers that are the run's where it
/// has one: each module stands so and keeps these outputs, and the repository has these files. So neither the number of workers nor
/// what they do first shows. And each goal that the sequential build comes to is answered in the run. Does nothing. Guide to
/// Working with Multiple Modules, for the sequential build; project rule for the rest.
pub fn run_confluence()
    ensures states { (g : Given) (run : List RunEntry) (said : Answers) → IsWhole g run
        → Extends (answers_in g.plan run) said
        → states_after g.plan run ≡ (sequential g said).states }
    ensures outputs { (g : Given) (run : List RunEntry) (said : Answers) → IsWhole g run
        → Extends (answers_in g.plan run) said
        → outputs_in g.plan run ≡ (sequential g said).outputs }
    ensures files { (g : Given) (run : List RunEntry) (said : Answers) → IsWhole g run
        → Extends (answers_in g.plan run) said
        → contents g.plan g.start run ≡ (sequential g said).files }
    ensures answered { (g : Given) (run : List RunEntry) (said : Answers) → IsWhole g run
        → Extends (answers_in g.plan run) said → (number goal : ℕ) (m : PlanModule) (e : Ending)
        → slice_get g.plan.modules number ≡ Some m → state_at (sequential g said) number ≡ Ended e
        → goal < length m.goals → reaches e goal ≡ true
        → is_kept (answers_in g.plan run) number goal ≡ true }
{}
