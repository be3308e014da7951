// In which order the goals of a module are answered, and what the next answer makes of them.
ghost use Rattle.std.specs.Prelude.{◌≡◌, ◌≤◌, ◌+◌, ℕ, List, [], ◌∷◌, ◌++◌, length, slice_get, Some, false};
ghost use Rattle.std.specs.List.{IsDistinct};
ghost use Rattle.goal_types.specs.declared.goal.GoalAnswer.{GoalAnswer};
ghost use Rattle.goal_types.specs.declared.goal.GoalCall.{GoalCall};
ghost use Rattle.goal_types.specs.declared.goal.OwnBytes.{OwnBytes};
ghost use Rattle.build_core.specs.Slots.{all_answered, one_goal};
ghost use Rattle.build_core.specs.declared.event.Event.TheVariants as event;
ghost use Rattle.build_core.specs.declared.plan.Plan.{Plan};
ghost use Rattle.build_core.specs.declared.plan.PlanModule.{PlanModule};
ghost use Rattle.event_core.specs.declared.entry.Carried.TheVariants as carried;
ghost use Rattle.event_core.specs.declared.entry.RunEntry.{RunEntry};
ghost use Rattle.event_core.specs.Runs.{IsRunOf, answers_in, goals_in};
ghost use Rattle.scripts.specs.Scripts.{Script, answers_left};
ghost use Rattle.run_law.specs.Given.{is_kept};
ghost use Rattle.run_law.specs.Placed.{IsPlacedAt};
ghost use Rattle.run_law.specs.Twice.{same_goal};

/// A law: the goals of a module are answered in order, each once. No goal that its worker's script still wants has an answer, so a module
/// with all goals to come has kept nothing, and no run has two answers to one goal. Where all answers so far were good, the next goal and
/// its answer decide how the goals stand. Does nothing. Introduction to the Build Lifecycle, for the order; project rule.
pub fn goals_come_in_order()
    ensures unanswered { (plan : Plan) (past : List RunEntry) (w number : ℕ) (m : PlanModule)
        (script : Script) (goal later : ℕ) → IsPlacedAt plan past w number m script
        → answers_left script + goal ≡ length m.goals → goal ≤ later
        → is_kept (answers_in plan past) number later ≡ false }
    ensures once { (plan : Plan) (past : List RunEntry) → IsRunOf plan past
        → IsDistinct same_goal (answers_in plan past) }
    ensures begun { (plan : Plan) (past : List RunEntry) (w number : ℕ) (m : PlanModule)
        (script : Script) → IsPlacedAt plan past w number m script
        → answers_left script ≡ length m.goals
        → goals_in (answers_in plan past) number m ≡ all_answered [] }
    ensures answered { (plan : Plan) (past : List RunEntry) (w number : ℕ) (m : PlanModule)
        (script : Script) (goal : ℕ) (call : GoalCall) (answer : GoalAnswer) (own : List OwnBytes)
        → IsPlacedAt plan past w number m script
        → answers_left script + goal ≡ length m.goals → slice_get m.goals goal ≡ Some call
        → goals_in (answers_in plan past) number m ≡ all_answered own
        → goals_in (answers_in plan (past ++ (record {
          event = event.Answer w goal;
          carried = carried.Answered answer;
        }) ∷ [])) number m
        ≡ one_goal m.budget goal call.slot answer own all_answered }
{}
