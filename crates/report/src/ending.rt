// How the line of a module ends.
ghost use Rattle.std.specs.Prelude.{◌≡◌, ◌&&◌, ◌==◌, true, find, length, nat_lt, slice_get, IfOk};
ghost use Rattle.std.specs.Option.{option_map};
ghost use Rattle.std.specs.List.{slice_index_or};
ghost use Rattle.build_core.specs.OneThread.{answer_at, name_of};
ghost use Rattle.report.specs.Rows.{call_text, call_text_of, ending_row, names_file, said, state_row};
ghost use Rattle.build_core.specs.declared.ending.State.TheVariants.{Ended as IsEnded};

use crate::RowEnd;
use build_core::{Answered, Ending, Plan, PlanModule, State};
use goal_types::{GoalAnswer, GoalCall};
use mvn_base::{FileName, Gav};
use mvn_shared::{Mem, Text};
use std::alloc::Global;

// A goal in the report.
fn call_text(alloc: Global, call: &GoalCall) -> Mem<Text>
    ensures { IfOk result (λ text. text ≡ call_text call.now) }
{
    let plugin = &call.artifact;
    let goal = &call.goal;
    let execution = &call.execution;
    Ok(Text::of(format!(in alloc; "{plugin}:{goal} {execution}")?))
}

// The goal of this number in the report.
fn call_text_at(alloc: Global, goals: &[GoalCall], number: u32) -> Mem<Text>
    ensures { IfOk result (λ text. text ≡ call_text_of (slice_get goals.now number)) }
{
    match goals.get(number as usize) {
        Some(call) => call_text(alloc, call),
        None => Text::from_str(alloc, ""),
    }
}

// Whether an answer is one of this goal of this module.
fn is_of(answered: &Answered, number: usize, goal: u32) -> bool
    ensures { result ≡ ((answered.now.«module» == number) && (answered.now.goal == goal)) }
{
    answered.module as usize == number && answered.goal == goal
}

// The first answer that is kept of a module's goal.
fn find_answer(answers: &[Answered], number: usize, goal: u32) -> Option<&Answered>
    ensures { option_map (λ a. a.now) result
        ≡ find (λ a. (a.«module» == number) && (a.goal == goal)) answers.now }
{
    for answer in answers {
        if is_of(answer, number, goal) {
            return Some(answer);
        }
    }
    None
}

// What a module's goal says, if it failed.
fn said_at(alloc: Global, answers: &[Answered], number: usize, goal: u32) -> Mem<Text>
    ensures { IfOk result (λ text. text ≡ said (answer_at answers.now number goal)) }
{
    match find_answer(answers, number, goal) {
        Some(answered) => match &answered.answer {
            GoalAnswer::Failed(text) => Ok(text.clone()?),
            GoalAnswer::Done => Text::from_str(alloc, ""),
            GoalAnswer::Produced(_) => Text::from_str(alloc, ""),
        },
        None => Text::from_str(alloc, ""),
    }
}

// The name of a file of the plan.
fn file_name(plan: &Plan, file: u32) -> Mem<FileName>
    requires { nat_lt file (length plan.now.files) ≡ true }
    ensures { IfOk result (λ name. name ≡ name_of plan.now file) }
{
    let name = &plan.files.as_slice()[file as usize];
    Ok(name.clone()?)
}

// How the line of a module that ended so ends.
fn ending_row(
    alloc: Global,
    plan: &Plan,
    module: &PlanModule,
    answers: &[Answered],
    number: usize,
    ending: Ending,
) -> Mem<RowEnd>
    requires { names_file plan.now (IsEnded ending) ≡ true }
    ensures { IfOk result (λ row.
        row ≡ ending_row plan.now module.now (answer_at answers.now number) ending) }
{
    match ending {
        Ending::Built => Ok(RowEnd::Built),
        Ending::Goal(goal) => {
            let call = call_text_at(alloc, module.goals.as_slice(), goal)?;
            let text = said_at(alloc, answers, number, goal)?;
            Ok(RowEnd::Goal { call, text })
        }
        Ending::Missing(file) => Ok(RowEnd::Missing(file_name(plan, file)?)),
        Ending::NoArtifact => Ok(RowEnd::NoArtifact),
        Ending::OutputTooLarge(_) => Ok(RowEnd::OutputTooLarge),
        Ending::ClasspathTooLarge => Ok(RowEnd::ClasspathTooLarge),
        Ending::Fault(device) => Ok(RowEnd::Fault(device)),
        Ending::Memory => Ok(RowEnd::Memory),
    }
}

// The coordinates of a module of the plan; those of another where the plan hasn't so many.
fn gav_at(plan: &Plan, place: u32, other: &PlanModule) -> Mem<Gav>
    ensures { IfOk result (λ gav. gav ≡ (slice_index_or plan.now.modules place other.now).gav) }
{
    match plan.modules.as_slice().get(place as usize) {
        Some(module) => Ok(module.gav.clone()?),
        None => Ok(other.gav.clone()?),
    }
}

/// How the line of a module ends, by how the module stands at the end and what its goals were answered: a goal that failed is
/// told with what it said, a skipped module with the upstream that it was skipped for. Costs a look at each answer. Project format.
pub(crate) fn row_end(
    alloc: Global,
    plan: &Plan,
    module: &PlanModule,
    answers: &[Answered],
    number: usize,
    state: State,
) -> Mem<RowEnd>
    requires { names_file plan.now state ≡ true }
    ensures { IfOk result (λ row.
        row ≡ state_row plan.now module.now (answer_at answers.now number) state) }
{
    match state {
        State::Ended(ending) => ending_row(alloc, plan, module, answers, number, ending),
        State::Skipped(upstream) => Ok(RowEnd::Skipped(gav_at(plan, upstream, module)?)),
        State::Waiting => Ok(RowEnd::Memory),
        State::Running(_) => Ok(RowEnd::Memory),
    }
}
