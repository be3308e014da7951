// What a module's goals come to by their answers, and the outputs that it keeps. Introduction to the Build Lifecycle, for the order of
// goals; project rule for the rest.
ghost use Rattle.std.specs.Prelude.{◌≡◌, None, length, slice_index_or, unwrap_or};
ghost use Rattle.std.specs.Option.{option_map};
ghost use Rattle.goal_types.specs.declared.goal.GoalAnswer.TheVariants.{Done};
ghost use Rattle.build_core.specs.OneThread.{answer_at};
ghost use Rattle.build_core.specs.Slots.{kept_of, run_goals, slot_bytes, slot_number};
ghost use Rattle.board.specs.Walks.{goals_of, held_by, no_sizes, output_step, produced, stand_of, step_of, walk_of};

use crate::sizes::Sizes;
use crate::table::AnswerTable;
use build_core::PlanModule;
use goal_types::{GoalAnswer, Slot};
use mvn_shared::Bytes;

/// How a module's goals stand by their answers: none failed or made too much, or this one did first.
#[derive(Clone, Copy)]
pub enum GoalsStand {
    Good,
    Failed(usize),
    TooLarge(usize),
}

// What one answer comes to, by the outputs so far.
#[derive(Clone, Copy)]
enum Step {
    Leaves,
    Holds(Sizes),
    Fails,
    Exceeds,
}

fn slot_number(slot: Slot) -> u8
    ensures { result ≡ slot_number slot }
{
    slot as u8
}

fn step_of(answer: Option<&GoalAnswer>, slot: Slot, sizes: Sizes, budget: u64) -> Step
    ensures { result ≡ step_of (unwrap_or (option_map (λ a. a.now) answer.entry) Done)
        slot sizes budget }
{
    match answer {
        None | Some(GoalAnswer::Done) => Step::Leaves,
        Some(GoalAnswer::Failed(_)) => Step::Fails,
        Some(GoalAnswer::Produced(bytes)) => output_step(bytes.len() as u64, slot, sizes, budget),
    }
}

// An output goes into its slot, unless that is none, or all would be more than the budget.
fn output_step(len: u64, slot: Slot, sizes: Sizes, budget: u64) -> Step
    ensures { result ≡ output_step len slot sizes budget }
{
    if slot == Slot::Nowhere {
        return Step::Leaves;
    }
    let more = sizes.with(slot, len);
    if more.total() <= budget as u128 {
        Step::Holds(more)
    } else {
        Step::Exceeds
    }
}

// The goal whose output is in a slot, after an output of this goal.
fn held_by(slot: Slot, wanted: Slot, goal: usize, found: Option<usize>) -> Option<usize>
    ensures { result ≡ held_by slot wanted goal found }
{
    if slot_number(slot) == slot_number(wanted) {
        Some(goal)
    } else {
        found
    }
}

fn bytes_of(answer: Option<&GoalAnswer>) -> Option<&Bytes>
    ensures { option_map (λ bytes. bytes.now) result
        ≡ produced (unwrap_or (option_map (λ a. a.now) answer.entry) Done) }
{
    match answer {
        Some(GoalAnswer::Produced(bytes)) => Some(bytes),
        Some(GoalAnswer::Done) | Some(GoalAnswer::Failed(_)) | None => None,
    }
}

impl AnswerTable {
    // The walk over a module's goals, and the last goal whose output is in the slot.
    fn walk(&self, number: u32, module: &PlanModule, slot: Slot) -> (GoalsStand, Option<usize>)
        requires goals { slice_index_or self.now.goals number 0 ≡ length «module».now.goals }
        ensures { result ≡ walk_of «module».now.budget (answer_at self.now.kept number) slot 0
            «module».now.goals no_sizes None }
    {
        let mut sizes = Sizes::none();
        let mut found = None;
        for goal in 0..module.goals.len() {
            let call = module.goals.as_slice()[goal].slot;
            match step_of(self.answer(number, goal), call, sizes, module.budget) {
                Step::Leaves => {}
                Step::Holds(more) => {
                    sizes = more;
                    found = held_by(call, slot, goal, found);
                }
                Step::Fails => return (GoalsStand::Failed(goal), found),
                Step::Exceeds => return (GoalsStand::TooLarge(goal), found),
            }
        }
        (GoalsStand::Good, found)
    }

    /// How the goals of a module stand by their answers. Takes no memory; costs a look at each goal.
    #[tactic(auto, using(crate::proofs::AnswerOutputs::walk_stand))]
    pub fn stand(&self, number: u32, module: &PlanModule) -> GoalsStand
        requires goals { slice_index_or self.now.goals number 0 ≡ length «module».now.goals }
        ensures { result ≡ stand_of (goals_of self.now.kept number «module».now) }
    {
        self.walk(number, module, Slot::Nowhere).0
    }

    /// The bytes that a module keeps in a slot: those that a goal produced last for it, before one failed or made too much. Takes no
    /// memory; costs a look at each goal.
    pub fn output(&self, number: u32, module: &PlanModule, slot: Slot) -> Option<&Bytes>
        requires goals { slice_index_or self.now.goals number 0 ≡ length «module».now.goals }
        ensures { option_map (λ bytes. bytes.now) result
            ≡ slot_bytes (kept_of (goals_of self.now.kept number «module».now)) slot }
    {
        match self.walk(number, module, slot).1 {
            Some(goal) => bytes_of(self.answer(number, goal)),
            None => None,
        }
    }
}
