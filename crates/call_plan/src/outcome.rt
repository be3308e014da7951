// What a call answers that builds nothing, by what planning gave.
ghost use Rattle.std.specs.Prelude.{◌≡◌, ◌++◌, Ok, Err, codes, is_some, IfOk};
ghost use Rattle.std.specs.String.{string_bytes};
ghost use Rattle.pom_source.specs.Answers.{fault_failed};
ghost use Rattle.build_plan.specs.Planning.{plan_failed};
ghost use Rattle.build_plan.specs.declared.planning.PlanFault.TheVariants as faults;
ghost use Rattle.call_plan.specs.Outcome.{device_name, fault_line, line, refused_by, root_missing, unknown_module, word_fault};
ghost use Rattle.call_plan.specs.Project.{IsMadeOf};

use build_outcome::{FAULT, Outcome, REFUSED};
use build_plan::{PlanFault, Planning};
use cli_words::{WordFault, WordKind};
use model_resolver::PomDevice;
use module_plan::Planned;
use mvn_base::{Place, PomId, Refusal, Rule};
use mvn_shared::{Bytes, Mem, OutOfMemory, Text};
use pom_source::BuildFault;
use std::alloc::Global;

// A text with a line feed after it.
fn line(text: String) -> Mem<Bytes>
    ensures { IfOk result (λ bytes. bytes ≡ line (string_bytes text)) }
{
    let mut bytes = text.into_bytes();
    bytes.push(b'\n')?;
    Ok(Bytes::of(bytes))
}

/// The answer to words of which this is the first fault.
#[tactic(auto, unfolding(crate::specs::Outcome::word_fault))]
pub(crate) fn word_fault(alloc: Global, fault: WordFault) -> Mem<Outcome>
    ensures { IfOk result (λ outcome. outcome ≡ word_fault fault) }
{
    let text = line(format!(in alloc; "{fault}")?)?;
    Ok(Outcome {
        text,
        status: REFUSED,
    })
}

// The name of a device.
fn device_name(device: PomDevice) -> &'static str
    ensures { result.now ≡ device_name device }
{
    match device {
        PomDevice::Tree => "tree",
        PomDevice::Shelf => "shelf",
        PomDevice::Remote => "remote",
    }
}

// The answer where a device failed.
#[tactic(auto, unfolding(crate::specs::Outcome::fault_line))]
fn fault_line(alloc: Global, device: PomDevice) -> Mem<Outcome>
    ensures { IfOk result (λ outcome. outcome ≡ fault_line device) }
{
    let mut text = String::from_str(alloc, "fault ")?;
    text.push_str(device_name(device))?;
    let text = line(text)?;
    Ok(Outcome {
        text,
        status: FAULT,
    })
}

// The answer to a refusal.
#[tactic(auto, unfolding(crate::specs::Outcome::refused_by))]
fn refused_by(alloc: Global, refusal: &Refusal) -> Mem<Outcome>
    ensures { IfOk result (λ outcome. outcome ≡ refused_by refusal.now) }
{
    let text = line(format!(in alloc; "{refusal}")?)?;
    Ok(Outcome {
        text,
        status: REFUSED,
    })
}

// The refusal of a folder without a POM.
fn root_missing(alloc: Global) -> Mem<Refusal>
    ensures { IfOk result (λ refusal. refusal ≡ root_missing) }
{
    let pom = PomId::Path(Text::from_str(alloc, "pom.xml")?);
    let place = Place::Name(Text::from_str(alloc, "pom.xml")?);
    Ok(Refusal {
        pom,
        rule: Rule::ModuleNotFound,
        place,
    })
}

// What is answered where planning refused or failed: of a device that failed the line that names it.
fn unplanned(alloc: Global, fault: &BuildFault, failed: Option<PomDevice>) -> Mem<Outcome>
    requires failed { is_some failed ≡ fault_failed fault.now }
    ensures { IfOk result (λ outcome. IsMadeOf (Err (faults.Build fault.now)) failed
        (Err outcome)) }
{
    match fault {
        BuildFault::Refused(refusal) => refused_by(alloc, refusal),
        BuildFault::Absent => refused_by(alloc, &root_missing(alloc)?),
        BuildFault::Source => {
            let Some(device) = failed else { unreachable!() };
            fault_line(alloc, device)
        }
        BuildFault::Memory => Err(OutOfMemory),
    }
}

// The answer where a word names no module that is built.
fn unknown_module(alloc: Global, place: usize) -> Mem<Outcome>
    ensures { IfOk result (λ outcome. outcome ≡ unknown_module place) }
{
    let kind = WordKind::UnknownModule;
    word_fault(alloc, WordFault { place, kind })
}

// What is answered in place of a plan.
#[tactic(auto, using(crate::proofs::Planned::made_none))]
fn refused(alloc: Global, fault: &PlanFault, failed: Option<PomDevice>) -> Mem<Outcome>
    requires failed { is_some failed ≡ plan_failed (Err fault.now) }
    ensures { IfOk result (λ outcome. IsMadeOf (Err fault.now) failed (Err outcome)) }
{
    match fault {
        PlanFault::Unknown(place) => {
            let outcome = unknown_module(alloc, *place)?;
            Ok(outcome)
        }
        PlanFault::Build(fault) => {
            let outcome = unplanned(alloc, fault, failed)?;
            Ok(outcome)
        }
    }
}

/// The plan that planning gave, or what is answered in its place.
#[tactic(auto, using(crate::proofs::Planned::made_none))]
pub(crate) fn answered(
    alloc: Global,
    planning: Planning<Result<Planned, PlanFault>>,
) -> Mem<Result<Planned, Outcome>>
    requires failed { is_some planning.failed ≡ plan_failed planning.answer }
    ensures { IfOk result (IsMadeOf planning.answer planning.failed) }
{
    let Planning { answer, failed } = planning;
    match answer {
        Ok(planned) => Ok(Ok(planned)),
        Err(fault) => Ok(Err(refused(alloc, &fault, failed)?)),
    }
}
