// Which profiles of a POM are active.
use crate::outside::tree;
use model_types::RawModel;
use mvn_base::{Choice, Gav, Machine, ModelError, Pair, PomId};
use mvn_outside::DeviceFault;
use mvn_shared::{List, Mem, OutOfMemory, Shared, Text};
use profiles::active;
use row_models::{at_path, field, machine, named, pairs, word, words};
use std::alloc::Global;

const FILES: &str = "app/src/x top";

// The POM of g:a:1 in a repository.
fn by_coordinates(alloc: Global) -> Mem<PomId> {
    let group = Text::from_str(alloc, "g")?;
    let artifact = Text::from_str(alloc, "a")?;
    let version = Text::from_str(alloc, "1")?;
    Ok(PomId::Gav(Gav {
        group,
        artifact,
        version,
    }))
}

// The name of the POM that a row speaks of.
fn pom(alloc: Global, kind: &str) -> Mem<PomId> {
    match kind {
        "active-by-coordinates" => by_coordinates(alloc),
        _ => at_path(alloc, "app/pom.xml"),
    }
}

// The POM that a row speaks of.
fn raw(alloc: Global, kind: &str, inside: &str) -> Result<Shared<RawModel>, ModelError> {
    let pom = pom(alloc, kind)?;
    named(alloc, &pom, inside)
}

// The profiles that are switched on and off.
fn choice(alloc: Global, fields: &[&str]) -> Mem<Choice> {
    let on = words(alloc, field(fields, 2))?;
    let off = words(alloc, field(fields, 3))?;
    Ok(Choice { on, off })
}

// What the places depend on besides the POM and its files.
#[derive(Drop)]
struct Request {
    machine: Shared<Machine>,
    defines: List<Pair>,
    choice: Choice,
}

fn asked(alloc: Global, fields: &[&str]) -> Mem<Request> {
    let machine = machine(alloc)?;
    let defines = pairs(alloc, field(fields, 1))?;
    let choice = choice(alloc, fields)?;
    Ok(Request {
        machine,
        defines,
        choice,
    })
}

// The places of the active profiles.
fn places(
    alloc: Global,
    raw: &RawModel,
    asked: &Request,
    fails: bool,
) -> Result<List<usize>, DeviceFault> {
    let mut files = tree(alloc, FILES, fails)?;
    let defines = asked.defines.as_slice();
    active(
        alloc,
        raw,
        &asked.machine,
        defines,
        &asked.choice,
        &mut files,
    )
}

fn push_place(alloc: Global, shown: &mut String, place: usize) -> Mem<()> {
    let place = format!(in alloc; " {place}")?;
    shown.push_str(place.as_str())?;
    Ok(())
}

fn push_places(alloc: Global, shown: &mut String, places: &[usize]) -> Mem<()> {
    for place in places {
        push_place(alloc, shown, *place)?;
    }
    Ok(())
}

// Places with a space in front of each.
fn shown(alloc: Global, places: &[usize]) -> Mem<String> {
    let mut shown = String::new(alloc);
    push_places(alloc, &mut shown, places)?;
    Ok(shown)
}

// The places, or that a file could not be asked for.
fn answered(alloc: Global, places: &Result<List<usize>, DeviceFault>) -> Mem<String> {
    match places {
        Ok(places) => shown(alloc, places.as_slice()),
        Err(DeviceFault::Failed) => word(alloc, "failed"),
        Err(DeviceFault::Memory) => Err(OutOfMemory),
    }
}

fn told_of_model(alloc: Global, raw: &RawModel, fields: &[&str], fails: bool) -> Mem<String> {
    let asked = asked(alloc, fields)?;
    answered(alloc, &places(alloc, raw, &asked, fails))
}

/// The places of the active profiles of a POM, with properties, and ids that are switched on and off.
pub(crate) fn told(alloc: Global, kind: &str, fields: &[&str]) -> Result<String, ModelError> {
    let raw = raw(alloc, kind, field(fields, 0))?;
    Ok(told_of_model(alloc, &raw, fields, kind == "active-failing")?)
}
