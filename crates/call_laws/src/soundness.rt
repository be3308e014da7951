// The law that a plan that planning gives can be built.
ghost use Rattle.std.specs.Prelude.{◌≡◌, ◌≤◌, ℕ, Ok};
ghost use Rattle.std.specs.Prelude.{List as Items};
ghost use Rattle.mvn_shared.specs.Files.{Files};
ghost use Rattle.build_plan.specs.Planning.{IsPlanned};
ghost use Rattle.cli_words.specs.declared.command_line.CommandLine.{CommandLine};
ghost use Rattle.event_core.specs.SoundPlans.{IsSoundPlan};
ghost use Rattle.call_plan.specs.Commands.{asked};
ghost use Rattle.pom_source.specs.declared.found.Given.{Given};
ghost use Rattle.module_plan.specs.declared.selected.Planned.{Planned};
ghost use Rattle.call_laws.specs.Reruns.{HasWorkers};

/// A law: a plan that planning gives, for 1 to 16 workers, is sound, so that it can be built; and the words of a call
/// ask for so many, if there are 1 to 16 hands. Does nothing. Project rule.
pub fn plans_are_sound()
    ensures sound { (tree start remote : Files) (given : Given) (line : CommandLine) (p : Planned)
        → HasWorkers line → IsPlanned tree start remote given line p → IsSoundPlan p.plan }
    ensures workers { (words : Items (Items ℕ)) (hands : ℕ) (line : CommandLine) → 1 ≤ hands
        → hands ≤ 16 → asked words hands ≡ Ok line → HasWorkers line }
{}
