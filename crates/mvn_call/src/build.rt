// Plans and builds what the words ask for, and gives what is answered before it is written.
ghost use Rattle.std.specs.Prelude.{◌≡◌, ◌<◌, ◌≤◌, ◌^◌, [], drop, length, Ok, Result, IfErr, IfOk, IfSome};
ghost use Rattle.mvn_outside.specs.Shelf.{files_now};
ghost use Rattle.event_core.specs.SoundPlans.{IsSoundPlan};
ghost use Rattle.run_law.specs.Given.{IsPresent};
ghost use Rattle.build_outcome.specs.Left.{outside_by};
ghost use Rattle.build_outcome.specs.Reports.{Reports};
ghost use Rattle.build_outcome.specs.declared.outcome.Outcome.{Outcome};
ghost use Rattle.cli_words.specs.declared.command_line.CommandLine.{CommandLine};
ghost use Rattle.mvn_call.specs.Calls.{Calls};
ghost use Rattle.mvn_call.specs.Promises.{Says};
ghost use Rattle.call_plan.specs.Found.{given_of};
ghost use Rattle.call_plan.specs.Headline.{told_of};
ghost use Rattle.call_plan.specs.Seen.{OthersStay, with_first};

use build_outcome::{Call, Outcome, nothing, run_and_report};
use call_plan::{Sees, given_of, plan_by_first};
use cli_words::CommandLine;
use crew_turns::Worker;
use module_plan::Planned;
use mvn_base::Machine;
use mvn_devices::{Devices, Outside};
use mvn_outside::{Gate, Hand, Remote, Shelf};
use mvn_shared::Mem;
use pom_source::Given;
use report::details_of;
use std::alloc::Global;
use std::sync::Wait;
use std::thread::Threads;

// Builds what was planned by as many hands as it has workers, once what is told of its modules besides is made.
fn build_planned<W: Threads + Wait + Sync, R: Remote + Send, S: Shelf + Send, G: Gate + Send>(
    rt: &W,
    alloc: Global,
    full: bool,
    planned: &Planned,
    shelf: S,
    hands: &mut [Hand<R, S::Area, G>],
) -> Call<S>
where
    S::Area: Send,
    requires sound { IsSoundPlan planned.now.plan }
    requires few { planned.now.plan.events < 2 ^ 32 }
    requires names { length planned.now.plan.names < 2 ^ 32 }
    requires hands { length hands.old ≡ planned.now.plan.workers }
    requires present { IfSome (S.told shelf) (λ told.
        IsPresent planned.now.plan (files_now told)) }
    ensures { Reports planned.now.plan (told_of full planned.now)
        (outside_by S.told S.faults ⟦<Hand<R, S::Area, G> as Worker>⟧.state shelf hands.old)
        (outside_by S.told S.faults ⟦<Hand<R, S::Area, G> as Worker>⟧.state
        result.devices hands.new)
        result.trace result.answers result.outcome }
{
    let models = planned.models.as_slice();
    let resolutions = planned.resolutions.as_slice();
    match details_of(alloc, full, models, resolutions, planned.unbound.as_slice()) {
        Ok(details) => run_and_report(rt, alloc, &planned.plan, details, shelf, hands),
        Err(error) => nothing(alloc, shelf, Err(error)),
    }
}

/// Builds what was planned by the first hands, as many as it has workers, and answers with the report. The others stay
/// as they are. May wait. Costs what building the modules costs, and the report. Project rule.
pub fn build_by_first<W: Threads + Wait + Sync, O: Outside>(
    rt: &W,
    alloc: Global,
    full: bool,
    planned: &Planned,
    devices: Devices<O>,
) -> Call<Devices<O>>
    requires sound { IsSoundPlan planned.now.plan }
    requires few { planned.now.plan.events < 2 ^ 32 }
    requires names { length planned.now.plan.names < 2 ^ 32 }
    requires enough { planned.now.plan.workers ≤ length devices.hands.items }
    requires present { IfSome (O.Shelf.told devices.shelf) (λ told.
        IsPresent planned.now.plan (files_now told)) }
    ensures reports { Reports planned.now.plan (told_of full planned.now)
        (with_first planned.now.plan.workers (⟦<Devices<O> as Sees>⟧.after devices).outside)
        (with_first planned.now.plan.workers (⟦<Devices<O> as Sees>⟧.after result.devices).outside)
        result.trace result.answers result.outcome }
    ensures tree { result.devices.tree ≡ devices.tree }
    ensures many { length result.devices.hands.items ≡ length devices.hands.items }
    ensures others { drop planned.now.plan.workers result.devices.hands.items
        ≡ drop planned.now.plan.workers devices.hands.items }
{
    let Devices { tree, shelf, hands } = devices;
    let mut hands = hands;
    let (first, _) = hands.split_at_mut(planned.plan.workers as usize);
    let call = build_planned(rt, alloc, full, planned, shelf, first);
    Call {
        outcome: call.outcome,
        devices: Devices {
            tree,
            shelf: call.devices,
            hands,
        },
        trace: call.trace,
        answers: call.answers,
    }
}

// What a call of this line answers, by what is given to its POMs.
fn build_given<W: Threads + Wait + Sync, O: Outside>(
    rt: &W,
    alloc: Global,
    given: &Given,
    line: &CommandLine,
    devices: Devices<O>,
) -> Call<Devices<O>>
    requires given { given.now ≡ given_of given.now.machine line.now }
    requires workers { (1 ≤ line.now.workers) ×
        (line.now.workers ≤ length devices.hands.items) }
    requires hands { length devices.hands.items ≤ 16 }
    ensures calls { Calls (Ok line.now) (⟦<Devices<O> as Sees>⟧.seen devices given.now.machine)
        (⟦<Devices<O> as Sees>⟧.after result.devices)
        result.trace result.answers result.outcome }
    ensures hands { OthersStay (Ok line.now) devices.hands.items result.devices.hands.items }
{
    let mut devices = devices;
    let planning = plan_by_first(alloc, given, line, &mut devices);
    let answer = planning.answer;
    match answer {
        Ok(Ok(planned)) => build_by_first(rt, alloc, line.full, &planned, devices),
        Ok(Err(outcome)) => nothing(alloc, devices, Ok(outcome)),
        Err(error) => nothing(alloc, devices, Err(error)),
    }
}

// What a call of this line answers.
fn build_line<W: Threads + Wait + Sync, O: Outside>(
    rt: &W,
    alloc: Global,
    line: &CommandLine,
    machine: Machine,
    devices: Devices<O>,
) -> Call<Devices<O>>
    requires workers { (1 ≤ line.now.workers) ×
        (line.now.workers ≤ length devices.hands.items) }
    requires hands { length devices.hands.items ≤ 16 }
    ensures calls { Calls (Ok line.now) (⟦<Devices<O> as Sees>⟧.seen devices machine)
        (⟦<Devices<O> as Sees>⟧.after result.devices)
        result.trace result.answers result.outcome }
    ensures hands { OthersStay (Ok line.now) devices.hands.items result.devices.hands.items }
{
    match given_of(alloc, machine, line) {
        Ok(given) => build_given(rt, alloc, &given, line, devices),
        Err(error) => nothing(alloc, devices, Err(error)),
    }
}

// An answer without a build, where the machine isn't needed.
fn unbuilt<D>(alloc: Global, machine: Machine, devices: D, outcome: Mem<Outcome>) -> Call<D>
    ensures outcome { result.outcome ≡ outcome }
    ensures devices { result.devices ≡ devices }
    ensures trace { result.trace ≡ [] }
    ensures answers { result.answers ≡ [] }
{
    drop(machine);
    nothing(alloc, devices, outcome)
}

/// What a call that asks for this answers before anything is written, and what it leaves. `answer` is what
/// `call_plan::asked` gave. May wait. Where memory ran out the outcome says that; a device that failed is named by the
/// text, with status 3. Costs what planning and building cost. Project rule.
pub fn run<W: Threads + Wait + Sync, O: Outside>(
    rt: &W,
    alloc: Global,
    answer: Mem<Result<CommandLine, Outcome>>,
    machine: Machine,
    devices: Devices<O>,
) -> Call<Devices<O>>
    requires hands { (1 ≤ length devices.hands.items) × (length devices.hands.items ≤ 16) }
    requires workers { IfOk answer (λ said. IfOk said (λ line.
        (1 ≤ line.workers) × (line.workers ≤ length devices.hands.items))) }
    requires words { IfOk answer (λ said. IfErr said (λ outcome. outcome.status ≡ 2)) }
    ensures calls { (said : Result CommandLine Outcome) → Says answer said → Calls said
        (⟦<Devices<O> as Sees>⟧.seen devices machine) (⟦<Devices<O> as Sees>⟧.after result.devices)
        result.trace result.answers result.outcome }
    ensures hands { (said : Result CommandLine Outcome) → Says answer said
        → OthersStay said devices.hands.items result.devices.hands.items }
{
    match answer {
        Ok(Ok(line)) => build_line(rt, alloc, &line, machine, devices),
        Ok(Err(outcome)) => unbuilt(alloc, machine, devices, Ok(outcome)),
        Err(error) => unbuilt(alloc, machine, devices, Err(error)),
    }
}
