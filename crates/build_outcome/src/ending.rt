// What is answered of a run, by how its modules ended and whether what they published is settled.
ghost use Rattle.std.specs.Prelude.{◌≡◌, ◌++◌, codes, false, IfOk};
ghost use Rattle.std.specs.List.{list_all, list_any};
ghost use Rattle.build_core.specs.OneThread.{is_built};
ghost use Rattle.build_core.specs.declared.ending.State.TheVariants.{Ended};
ghost use Rattle.report.specs.Rows.{NamesFiles};
ghost use Rattle.report.specs.Report.{line};
ghost use Rattle.run_law.specs.Given.{is_fault};
ghost use Rattle.crew.specs.AsOne.{are_calm};
ghost use Rattle.build_outcome.specs.Outcomes.{AnswersSettled, is_memory, IsRunAnswer, run_status};

use crate::outcome::{BUILT, FAILED, FAULT, Outcome};
use build_core::{Answered, Ending, Plan, State};
use mvn_outside::DeviceFault;
use mvn_shared::{Bytes, List, Mem, OutOfMemory};
use report::{Details, plan_report};
use std::alloc::Global;

// Whether a module ended so for want of memory.
fn is_memory_ending(ending: Ending) -> bool
    ensures { result ≡ is_memory (Ended ending) }
{
    match ending {
        Ending::Memory => true,
        _ => false,
    }
}

// Whether a module ended for want of memory.
fn is_memory(state: State) -> bool
    ensures { result ≡ is_memory state }
{
    match state {
        State::Ended(ending) => is_memory_ending(ending),
        _ => false,
    }
}

// Whether a module ended so by a fault or for want of memory.
fn is_fault_ending(ending: Ending) -> bool
    ensures { result ≡ is_fault (Ended ending) }
{
    match ending {
        Ending::Fault(_) => true,
        Ending::Memory => true,
        _ => false,
    }
}

// Whether a module ended by a fault or for want of memory.
fn is_fault(state: State) -> bool
    ensures { result ≡ is_fault state }
{
    match state {
        State::Ended(ending) => is_fault_ending(ending),
        _ => false,
    }
}

// Whether this ending is that of a module that is built.
fn is_built_ending(ending: Ending) -> bool
    ensures { result ≡ is_built (Ended ending) }
{
    match ending {
        Ending::Built => true,
        _ => false,
    }
}

// Whether a module is built.
fn is_built(state: State) -> bool
    ensures { result ≡ is_built state }
{
    match state {
        State::Ended(ending) => is_built_ending(ending),
        _ => false,
    }
}

fn has_memory(states: &[State]) -> bool
    ensures { result ≡ list_any is_memory states.now }
{
    states.iter().any(|state| is_memory(*state))
}

fn are_calm(states: &[State]) -> bool
    ensures { result ≡ are_calm states.now }
{
    states.iter().all(|state| !is_fault(*state))
}

fn are_built(states: &[State]) -> bool
    ensures { result ≡ list_all is_built states.now }
{
    states.iter().all(|state| is_built(*state))
}

// The status of a run, once what it published is settled.
fn run_status(states: &[State]) -> u8
    ensures { result ≡ run_status states.now }
{
    if !are_calm(states) {
        FAULT
    } else if are_built(states) {
        BUILT
    } else {
        FAILED
    }
}

// What is answered where the repository could not be settled.
fn unsettled(report: Bytes) -> Mem<Outcome>
    ensures { IfOk result (λ answer.
        answer ≡ record { text = report ++ line (codes "fault settle"); status = 3 }) }
{
    let mut text = report.into_vec();
    text.extend_from_slice(b"fault settle\n")?;
    Ok(Outcome {
        text: Bytes::of(text),
        status: FAULT,
    })
}

// What is answered of a report, by whether the repository is settled.
fn outcome_with(report: Bytes, status: u8, settled: Result<(), DeviceFault>) -> Mem<Outcome>
    ensures { IfOk result (AnswersSettled report status settled) }
{
    match settled {
        Ok(()) => Ok(Outcome {
            text: report,
            status,
        }),
        Err(DeviceFault::Failed) => unsettled(report),
        Err(DeviceFault::Memory) => Err(OutOfMemory),
    }
}

// What is answered of the report of a run in which memory didn't run out.
#[tactic(auto, using(crate::proofs::Endings::run_answers))]
fn answered(
    alloc: Global,
    plan: &Plan,
    answers: &[Answered],
    states: &[State],
    details: List<Details>,
    settled: Result<(), DeviceFault>,
) -> Mem<Outcome>
    requires named { NamesFiles plan.now states.now }
    requires memory { list_any is_memory states.now ≡ false }
    ensures { IfOk result (IsRunAnswer plan.now details answers.now states.now settled) }
{
    let report = plan_report(alloc, plan, answers, states, details)?;
    outcome_with(report, run_status(states), settled)
}

/// What is answered of a run: nothing but want of memory where a module ended so; else the report, with the line `fault
/// settle` after it if what was published isn't settled, and the status. Costs the report. Project rule.
pub(crate) fn outcome_of(
    alloc: Global,
    plan: &Plan,
    answers: &[Answered],
    states: &[State],
    details: List<Details>,
    settled: Result<(), DeviceFault>,
) -> Mem<Outcome>
    requires named { NamesFiles plan.now states.now }
    ensures { IfOk result (IsRunAnswer plan.now details answers.now states.now settled) }
{
    if has_memory(states) {
        return Err(OutOfMemory);
    }
    answered(alloc, plan, answers, states, details, settled)
}
