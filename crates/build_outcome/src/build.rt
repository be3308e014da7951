// From a plan to what is answered: the areas are swept, the modules are built, the repository is settled, and the
// report is made.
ghost use Rattle.std.specs.Prelude.{◌≡◌, ◌<◌, ◌^◌, [], length, map, IfOk, IfSome, List};
ghost use Rattle.mvn_outside.specs.Shelf.{files_now};
ghost use Rattle.report.specs.Rows.{NamesFiles};
ghost use Rattle.event_core.specs.SoundPlans.{IsSoundPlan};
ghost use Rattle.run_law.specs.Given.{IsPresent};
ghost use Rattle.crew.specs.declared.build.BuildError.TheVariants.{Memory};
ghost use Rattle.crew_turns.specs.Hands.{HandState};
ghost use Rattle.build_outcome.specs.Finished.{AreSwept, Finishes};
ghost use Rattle.build_outcome.specs.Left.{outside_by};
ghost use Rattle.build_outcome.specs.Outcomes.{area_fault};
ghost use Rattle.build_outcome.specs.Reports.{Reports};

use crate::ending::outcome_of;
use crate::outcome::{FAULT, Outcome};
use crate::sweeping::sweep_all;
use board::Finished;
use build_core::{Answered, Event, Plan};
use crew::{BuildError, build_all};
use crew_turns::Worker;
use mvn_outside::{DeviceFault, Gate, Hand, Remote, Shelf, settle};
use mvn_shared::{Bytes, List, Mem, OutOfMemory};
use report::Details;
use std::alloc::Global;
use std::sync::Wait;
use std::thread::Threads;

/// What a call answers before it is written, and what it leaves.
#[derive(Drop)]
pub struct Call<D> {
    /// The text and the status, unless memory ran out.
    pub outcome: Mem<Outcome>,
    /// The repository, or all devices, as the call left it.
    pub devices: D,
    /// The events of the run; none where nothing was built.
    pub trace: List<Event>,
    /// What the goals answered, one for each event `Answer` of the trace.
    pub answers: List<Answered>,
}

/// An answer without a build. Takes no memory.
pub fn nothing<D>(alloc: Global, devices: D, outcome: Mem<Outcome>) -> Call<D>
    ensures outcome { result.outcome ≡ outcome }
    ensures devices { result.devices ≡ devices }
    ensures trace { result.trace ≡ [] }
    ensures answers { result.answers ≡ [] }
{
    Call {
        outcome,
        devices,
        trace: List::new(alloc),
        answers: List::new(alloc),
    }
}

// The answer where there was no memory to begin; the repository is as it was given.
fn given_back<S>(alloc: Global, error: BuildError<S>) -> Call<S>
    ensures outcome { IfOk result.outcome (λ answer. ⊥) }
    ensures shelf { error ≡ Memory result.devices }
    ensures trace { result.trace ≡ [] }
    ensures answers { result.answers ≡ [] }
{
    match error {
        BuildError::Memory(shelf) => nothing(alloc, shelf, Err(OutOfMemory)),
    }
}

// The answer where an area can't be swept.
#[tactic(auto, unfolding(crate::specs::Outcomes::area_fault))]
fn fault_area(alloc: Global) -> Mem<Outcome>
    ensures is { IfOk result (λ answer. answer ≡ area_fault) }
    ensures status { IfOk result (λ answer. answer.status ≡ 3) }
{
    let text = Bytes::from_slice(alloc, b"fault area\n")?;
    Ok(Outcome {
        text,
        status: FAULT,
    })
}

// Settles what a run published, and answers.
fn finish<S: Shelf>(
    alloc: Global,
    plan: &Plan,
    details: List<Details>,
    left: Finished<S>,
) -> Call<S>
    requires named { NamesFiles plan.now left.states }
    ensures { Finishes S.told S.faults plan.now details left result }
{
    let Finished {
        shelf,
        trace,
        answers,
        states,
    } = left;
    let mut shelf = shelf;
    let settled = settle(&mut shelf);
    let outcome = outcome_of(
        alloc,
        plan,
        answers.as_slice(),
        states.as_slice(),
        details,
        settled,
    );
    Call {
        outcome,
        devices: shelf,
        trace,
        answers,
    }
}

// Builds the modules of the plan by hands whose areas are swept, settles what was published, and answers.
fn build_swept<W: Threads + Wait + Sync, S: Shelf + Send, R: Remote + Send, G: Gate + Send>(
    rt: &W,
    alloc: Global,
    plan: &Plan,
    details: List<Details>,
    shelf: S,
    hands: &mut [Hand<R, S::Area, G>],
) -> Call<S>
where
    S::Area: Send,
    requires sound { IsSoundPlan plan.now }
    requires few { plan.now.events < 2 ^ 32 }
    requires names { length plan.now.names < 2 ^ 32 }
    requires hands { length hands.old ≡ plan.now.workers }
    requires present { IfSome (S.told shelf) (λ told. IsPresent plan.now (files_now told)) }
    ensures { (before : List HandState) → AreSwept before
        (map ⟦<Hand<R, S::Area, G> as Worker>⟧.state hands.old)
        → Reports plan.now details
        (record { shelf = S.told shelf; faults = S.faults shelf; hands = before })
        (outside_by S.told S.faults ⟦<Hand<R, S::Area, G> as Worker>⟧.state
        result.devices hands.new)
        result.trace result.answers result.outcome }
{
    match build_all(rt, alloc, plan, shelf, hands) {
        Ok(left) => finish(alloc, plan, details, left),
        Err(error) => given_back(alloc, error),
    }
}

/// Builds the modules of a plan by as many hands as it has workers, which may be one, each in a thread of its own, once
/// the area of each is swept; settles once what was published; and answers with the report. An area that can't be swept
/// is told as `fault area` with status 3, and nothing is built. May wait. Costs what building the modules costs, and
/// the report. Guide to Working with Multiple Modules, for the build by one hand that it is measured by; project rule.
pub fn run_and_report<W: Threads + Wait + Sync, S: Shelf + Send, R: Remote + Send, G: Gate + Send>(
    rt: &W,
    alloc: Global,
    plan: &Plan,
    details: List<Details>,
    shelf: S,
    hands: &mut [Hand<R, S::Area, G>],
) -> Call<S>
where
    S::Area: Send,
    requires sound { IsSoundPlan plan.now }
    requires few { plan.now.events < 2 ^ 32 }
    requires names { length plan.now.names < 2 ^ 32 }
    requires hands { length hands.old ≡ plan.now.workers }
    requires present { IfSome (S.told shelf) (λ told. IsPresent plan.now (files_now told)) }
    ensures reports { Reports plan.now details
        (outside_by S.told S.faults ⟦<Hand<R, S::Area, G> as Worker>⟧.state shelf hands.old)
        (outside_by S.told S.faults ⟦<Hand<R, S::Area, G> as Worker>⟧.state
        result.devices hands.new)
        result.trace result.answers result.outcome }
{
    match sweep_all(hands) {
        Ok(()) => build_swept(rt, alloc, plan, details, shelf, hands),
        Err(DeviceFault::Failed) => nothing(alloc, shelf, fault_area(alloc)),
        Err(DeviceFault::Memory) => nothing(alloc, shelf, Err(OutOfMemory)),
    }
}
