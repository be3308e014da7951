// What goals answered, and what modules keep of it.
ghost use Rattle.std.specs.Prelude.{◌≡◌, ℕ, Some, length, slice_get, slice_index_or, IfOk, IfSome};
ghost use Rattle.std.specs.Option.{option_map, option_map_or};
ghost use Rattle.build_core.specs.declared.event.Event.TheVariants as event;
ghost use Rattle.event_core.specs.declared.entry.Carried.TheVariants as carried;
ghost use Rattle.event_core.specs.Standing.{course_of, module_of, standing_of};
ghost use Rattle.board.specs.Tables.{goal_counts};
ghost use Rattle.board.specs.Walks.{goals_of};
ghost use Rattle.board.specs.declared.next.AnswerKept.TheVariants.{Held};
ghost use Rattle.board.specs.Builds.{MayCome, answer_kept, kept_in, kept_so, module_at, output_at, with_entry};

use crate::board::{Board, step};
use crate::next::AnswerKept;
use crate::{AnswerTable, GoalsStand};
use build_core::{Answered, Event, Plan, PlanModule};
use event_core::Core;
use goal_types::{GoalAnswer, Slot};
use mvn_outside::Shelf;
use mvn_shared::{Bytes, Mem};

// A module of the plan.
fn module_in(plan: &Plan, number: u32) -> Option<&PlanModule>
    ensures { option_map (λ m. m.now) result ≡ slice_get plan.now.modules number }
{
    plan.modules.as_slice().get(number as usize)
}

// Whether a goal's answer was kept, as the goals of its module stand with it.
fn kept_so(stand: GoalsStand, goal: u32) -> AnswerKept
    ensures { result ≡ kept_so goal stand }
{
    match stand {
        GoalsStand::TooLarge(at) => {
            if at == goal as usize {
                AnswerKept::TooLarge
            } else {
                AnswerKept::Held
            }
        }
        GoalsStand::Good | GoalsStand::Failed(_) => AnswerKept::Held,
    }
}

// Whether a goal's answer was kept within the budget.
fn kept_by(answers: &AnswerTable, number: u32, module: &PlanModule, goal: u32) -> AnswerKept
    requires { slice_index_or answers.now.goals number 0 ≡ length «module».now.goals }
    ensures { result ≡ answer_kept goal (goals_of answers.now.kept number «module».now) }
{
    kept_so(answers.stand(number, module), goal)
}

// Whether a goal's answer was kept, of a module of the plan.
fn kept_in(answers: &AnswerTable, plan: &Plan, number: u32, goal: u32) -> AnswerKept
    requires { answers.now.goals ≡ goal_counts plan.now.modules }
    ensures { result ≡ option_map_or (λ m. answer_kept goal (goals_of answers.now.kept number m))
        (slice_get plan.now.modules number) Held }
{
    match module_in(plan, number) {
        Some(module) => kept_by(answers, number, module, goal),
        None => AnswerKept::Held,
    }
}

// The module that a worker builds, where it builds one.
fn module_by(core: &Core, worker: u32) -> u32
    requires { (m : ℕ) × (module_of (course_of (standing_of core.now.0 core.now.1) worker)
        ≡ Some m) }
    ensures { module_of (course_of (standing_of core.now.0 core.now.1) worker) ≡ Some result }
{
    match core.module(worker) {
        Some(module) => module,
        None => unreachable!(),
    }
}

fn copy_of(bytes: Option<&Bytes>) -> Mem<Option<Bytes>>
    ensures { IfOk result (λ copy. copy ≡ option_map (λ b. b.now) bytes.entry) }
{
    match bytes {
        Some(bytes) => Ok(Some(bytes.clone()?)),
        None => Ok(None),
    }
}

impl<'a, S: Shelf> Board<'a, S> {
    /// Keeps what a goal of the worker's module answered: one event, which carries the answer. It is `TooLarge` where its output would
    /// make the module's kept outputs more than its budget: then the slot stays as it was. Takes no memory and copies no bytes; costs a
    /// look at each goal of the module. Project rule.
    pub fn answer(&mut self, worker: u32, goal: u32, answer: GoalAnswer) -> AnswerKept
        requires may { MayCome self.old (event.Answer worker goal) }
        ensures entry { self.new
            ≡ with_entry self.old (event.Answer worker goal) (carried.Answered answer) }
        ensures kept { IfSome (module_at self.old worker)
            (λ number. result ≡ kept_in self.new number goal) }
    {
        let number = module_by(&self.core, worker);
        step(&mut self.core, Event::Answer { worker, goal });
        self.core.runs_within_bound();
        self.answers.note(Answered {
            module: number,
            goal,
            answer,
        });
        kept_in(&self.answers, self.plan, number, goal)
    }

    /// A copy of the bytes that a module keeps in a slot, if any. No event. Costs a look at each goal of the module, and the copy.
    pub fn output(&self, number: u32, slot: Slot) -> Mem<Option<Bytes>>
        ensures { IfOk result (λ bytes. bytes ≡ output_at self.now number slot) }
    {
        match module_in(self.plan, number) {
            Some(module) => copy_of(self.answers.output(number, module, slot)),
            None => Ok(None),
        }
    }
}
