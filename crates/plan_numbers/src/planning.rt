// Makes the plan of the modules that are built, or refuses it.
ghost use Rattle.std.specs.Prelude.{◌≡◌, ℕ, false, length, None, Ok, IfOk, IfSome};
ghost use Rattle.std.specs.List.{AllByRecursion};
ghost use Rattle.mvn_shared.specs.Cause.{HasCause};
ghost use Rattle.mvn_shared.specs.Files.{Files};
ghost use Rattle.mvn_outside.specs.Faults.{device_failed};
ghost use Rattle.mvn_outside.specs.Shelf.{files_now};
ghost use Rattle.model_resolver.specs.Devices.{Counted, IsCounted};
ghost use Rattle.model_resolver.specs.Noting.{first_after};
ghost use Rattle.model_resolver.specs.declared.failures.PomDevice.TheVariants as devices;
ghost use Rattle.pom_source.specs.Answers.{Says, build_failed};
ghost use Rattle.module_plan.specs.Plans.{numbered, present_in, IsNumbered};
ghost use Rattle.plan_numbers.specs.Whole.{HasGav};
ghost use Rattle.plan_numbers.specs.Stages.{IsAssembled, assembled, too_many};

use crate::present::present_in;
use crate::{Numbered, number_modules};
use build_core::Plan;
use model_resolver::{Failures, PomDevice};
use module_plan::{Planned, SelectedModule};
use mvn_base::{Phase, PomId, Rule};
use mvn_outside::{DeviceFault, Shelf};
use mvn_shared::{List, Text};
use pom_source::{BuildFault, text_refused};
use std::alloc::Global;

// Too many events.
fn refused(alloc: Global) -> Result<Planned, BuildFault>
    ensures says { Says too_many result }
    ensures quiet { build_failed result ≡ false }
{
    let pom = PomId::Path(Text::from_str(alloc, "pom.xml")?);
    let place = Text::from_str(alloc, "events")?;
    text_refused(&pom, Rule::GraphTooLarge, &place)
}

// A plan of its parts.
fn assembled(numbered: Numbered, workers: u32, present: List<bool>) -> Planned
    ensures { result ≡ assembled numbered workers present }
{
    let parts = numbered.parts;
    let plan = Plan {
        modules: parts.modules,
        names: numbered.names,
        files: numbered.files,
        present,
        workers,
        events: numbered.events,
    };
    Planned {
        plan,
        models: parts.models,
        resolutions: parts.resolutions,
        unbound: parts.unbound,
    }
}

// What the questions for the files gave, with its failure counted.
fn noted(
    failures: &mut Failures,
    numbered: Numbered,
    workers: u32,
    present: Result<List<bool>, DeviceFault>,
) -> Result<Planned, BuildFault>
    ensures says { (local : Files) → IfOk present (λ list. list ≡ present_in local numbered.files)
        → Says (Ok (assembled numbered workers (present_in local numbered.files))) result }
    ensures made { IfOk present (λ list. length list ≡ length numbered.files)
        → IfOk result (IsAssembled numbered workers) }
    ensures first { failures.new.first
        ≡ first_after devices.Shelf (device_failed present) failures.old.first }
    ensures failed { build_failed result ≡ device_failed present }
    ensures cause { HasCause failures.old.count failures.new.count (device_failed present) }
{
    match present {
        Ok(list) => Ok(assembled(numbered, workers, list)),
        Err(DeviceFault::Failed) => {
            failures.note(PomDevice::Shelf);
            Err(BuildFault::Source)
        }
        Err(DeviceFault::Memory) => Err(BuildFault::Memory),
    }
}

// The plan of its parts: it is looked which of its files are there.
#[tactic(auto, using(model_resolver::proofs::Counting::counted_shelf, model_resolver::proofs::Counting::counts_on, crate::proofs::SelectedCounting::swapped))]
fn with_present<S: Shelf>(
    alloc: Global,
    shelf: &mut S,
    failures: &mut Failures,
    workers: u32,
    numbered: Numbered,
) -> Result<Planned, BuildFault>
    requires none { failures.old.first ≡ None }
    ensures says { IfSome (S.told shelf.old) (λ told. Says (Ok (assembled numbered workers
        (present_in (files_now told) numbered.files))) result) }
    ensures made { IfOk result (IsAssembled numbered workers) }
    ensures same { S.told shelf.new ≡ S.told shelf.old }
    ensures counted { (tree remote : ℕ) → Counted failures.old.first failures.new.first
        (record { tree = tree; shelf = S.faults shelf.old; remote = remote })
        (record { tree = tree; shelf = S.faults shelf.new; remote = remote }) }
    ensures noted { IsCounted failures.old → IsCounted failures.new }
    ensures cause { HasCause failures.old.count failures.new.count (build_failed result) }
{
    let present = present_in(alloc, shelf, numbered.files.as_slice());
    noted(failures, numbered, workers, present)
}

/// The plan of the modules that are built, in the order of the build, up to a phase, for so many workers; refused if
/// it has more than 4,194,304 events, which are counted before its names and files are numbered. It is looked once
/// for each of its files whether it is in the local repository, which isn't asked if a device failed before. Nearly
/// linear in the names of the modules' dependencies. Guide to Working with Multiple Modules; Introduction to the
/// Build Lifecycle; the numbers are project rules.
#[tactic(auto, using(model_resolver::proofs::Counting::counted_still, model_resolver::proofs::Counting::counts_still, model_resolver::proofs::Counting::counted_none))]
pub fn plan_selected<S: Shelf>(
    alloc: Global,
    shelf: &mut S,
    failures: &mut Failures,
    phase: Phase,
    workers: u32,
    modules: List<SelectedModule>,
) -> Result<Planned, BuildFault>
    requires named { AllByRecursion HasGav modules }
    ensures says { IfSome (S.told shelf.old) (λ told.
        Says (numbered phase workers (files_now told) modules) result) }
    ensures made { IfOk result (IsNumbered phase workers modules) }
    ensures same { S.told shelf.new ≡ S.told shelf.old }
    ensures counted { (tree remote : ℕ) → Counted failures.old.first failures.new.first
        (record { tree = tree; shelf = S.faults shelf.old; remote = remote })
        (record { tree = tree; shelf = S.faults shelf.new; remote = remote }) }
    ensures noted { IsCounted failures.old → IsCounted failures.new }
    ensures cause { HasCause failures.old.count failures.new.count (build_failed result) }
{
    if failures.first.is_some() {
        failures.note(PomDevice::Shelf);
        return Err(BuildFault::Source);
    }
    let plan = match number_modules(alloc, phase, modules) {
        Ok(plan) => plan,
        Err(_) => return Err(BuildFault::Memory),
    };
    match plan {
        Some(numbered) => with_present(alloc, shelf, failures, workers, numbered),
        None => refused(alloc),
    }
}
