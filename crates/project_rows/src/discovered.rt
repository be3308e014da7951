// The POMs that are found in projects, and the modules that are selected.
use crate::ordering::{chosen, ordered, push_models};
use discovery::{ModulePom, discover};
use lineage::Store;
use model_types::Model;
use mvn_base::ModelError;
use mvn_shared::{List, Mem, Shared};
use pom_source::{BuildFault, Given};
use reactor::{BuildOrder, SelectionFault};
use row_models::{field, split_row, words};
use row_projects::{
    Project, describe, empty, no_given, push_fault, push_no_memory, push_number, push_refusal,
    push_unknown, push_word, put_row,
};
use std::alloc::Global;

// What is found.
type Found = Result<List<ModulePom>, BuildFault>;

fn found(alloc: Global, project: &mut Project, given: &Given) -> Found {
    let mut store = Store::new(alloc);
    discover(alloc, &mut store, project, given)
}

// The paths of POMs, with a space between two.
fn push_paths(text: &mut String, poms: &[ModulePom]) -> Mem<()> {
    for pom in poms {
        push_word(text, pom.path.as_str())?;
    }
    Ok(())
}

// The paths of the POMs that are found, or why there are none.
fn push_found(alloc: Global, text: &mut String, found: &Found) -> Mem<()> {
    match found {
        Ok(poms) => push_paths(text, poms.as_slice()),
        Err(fault) => push_fault(alloc, text, fault),
    }
}

// How many POMs are found.
fn push_count(alloc: Global, text: &mut String, found: &Found) -> Mem<()> {
    match found {
        Ok(poms) => push_number(alloc, text, "", poms.len() as u64),
        Err(fault) => push_fault(alloc, text, fault),
    }
}

// The artifacts of some modules, with a space between two.
fn push_artifacts(text: &mut String, models: &[Shared<Model>], numbers: &[u32]) -> Mem<()> {
    for n in numbers {
        if let Some(m) = models.get(*n as usize) {
            push_word(text, m.gav.artifact.as_str())?;
        }
    }
    Ok(())
}

// The modules that are selected, or the word that means none.
fn push_selection(
    alloc: Global,
    text: &mut String,
    models: &[Shared<Model>],
    chosen: &Result<List<u32>, SelectionFault>,
) -> Mem<()> {
    match chosen {
        Ok(list) => push_artifacts(text, models, list.as_slice()),
        Err(SelectionFault::Unknown(place)) => push_unknown(alloc, text, *place),
        Err(SelectionFault::Memory) => push_no_memory(text),
    }
}

// The modules that words select, or the word that means none.
fn push_chosen(
    alloc: Global,
    text: &mut String,
    models: &[Shared<Model>],
    found: &BuildOrder,
    words: &str,
) -> Mem<()> {
    let chosen = chosen(alloc, models, found, words);
    push_selection(alloc, text, models, &chosen)
}

// The modules that words select, in an order, or why there is none.
fn push_if_ordered(
    alloc: Global,
    text: &mut String,
    models: &[Shared<Model>],
    found: &Result<BuildOrder, ModelError>,
    words: &str,
) -> Mem<()> {
    match found {
        Ok(found) => push_chosen(alloc, text, models, found, words),
        Err(ModelError::Refused(refusal)) => push_refusal(alloc, text, refusal),
        Err(ModelError::Memory) => push_no_memory(text),
    }
}

// The modules that words select in their order, or why there is none.
fn push_ordered(
    alloc: Global,
    text: &mut String,
    models: &[Shared<Model>],
    words: &str,
) -> Mem<()> {
    let found = ordered(alloc, models);
    push_if_ordered(alloc, text, models, &found, words)
}

// The modules that words select of models that were to be made, or why they weren't.
fn push_if_made(
    alloc: Global,
    text: &mut String,
    made: &Result<(), BuildFault>,
    models: &[Shared<Model>],
    words: &str,
) -> Mem<()> {
    match made {
        Ok(()) => push_ordered(alloc, text, models, words),
        Err(fault) => push_fault(alloc, text, fault),
    }
}

// The modules that words select of POMs, whose models are added to none.
fn push_modelled(
    alloc: Global,
    text: &mut String,
    project: &mut Project,
    given: &Given,
    poms: &[ModulePom],
    models: &mut Vec<Shared<Model>>,
    words: &str,
) -> Mem<()> {
    let made = push_models(alloc, project, given, poms, models);
    push_if_made(alloc, text, &made, models.as_slice(), words)
}

// The modules that words select of POMs.
fn push_selected(
    alloc: Global,
    text: &mut String,
    project: &mut Project,
    given: &Given,
    poms: &[ModulePom],
    words: &str,
) -> Mem<()> {
    let mut models = Vec::new(alloc);
    push_modelled(alloc, text, project, given, poms, &mut models, words)
}

// The modules that words select of the POMs that are found.
fn push_if_found(
    alloc: Global,
    text: &mut String,
    project: &mut Project,
    given: &Given,
    found: &Found,
    words: &str,
) -> Mem<()> {
    match found {
        Ok(poms) => push_selected(alloc, text, project, given, poms.as_slice(), words),
        Err(fault) => push_fault(alloc, text, fault),
    }
}

// What is told of what is found.
fn push_what_is_found(
    alloc: Global,
    text: &mut String,
    project: &mut Project,
    given: &Given,
    found: &Found,
    kind: &str,
    first: &str,
) -> Mem<()> {
    match kind {
        "select" => push_if_found(alloc, text, project, given, found, first),
        "discover" | "discover-failing" => push_found(alloc, text, found),
        _ => push_count(alloc, text, found),
    }
}

// What is told of a project, with what is given to it.
fn told_with(
    alloc: Global,
    text: &mut String,
    project: &mut Project,
    given: &Given,
    kind: &str,
    first: &str,
) -> Mem<()> {
    let found = found(alloc, project, given);
    push_what_is_found(alloc, text, project, given, &found, kind, first)
}

// What is told of a project on a machine with Linux, with the profiles of the first field where these are asked for.
fn told_on(
    alloc: Global,
    text: &mut String,
    project: &mut Project,
    given: &mut Given,
    kind: &str,
    first: &str,
) -> Mem<()> {
    describe(&mut given.machine)?;
    if kind == "discover" {
        given.choice.on = words(alloc, first)?;
    }
    told_with(alloc, text, project, given, kind, first)
}

// What is told of a project without files yet.
fn told_of(
    alloc: Global,
    text: &mut String,
    project: &mut Project,
    kind: &str,
    row: &str,
    fields: &[&str],
) -> Mem<()> {
    put_row(alloc, project, kind, row, fields)?;
    let mut given = no_given(alloc);
    told_on(alloc, text, project, &mut given, kind, field(fields, 0))
}

// The number of the call that fails, where one does.
fn failing(alloc: Global, kind: &str, first: &str) -> Mem<List<u64>> {
    let mut numbers = List::new(alloc);
    if kind == "discover-failing" {
        numbers.push(first.parse::<u64>().unwrap_or(0))?;
    }
    Ok(numbers)
}

// What is told of the fields of a row.
fn told_fields(
    alloc: Global,
    text: &mut String,
    kind: &str,
    row: &str,
    fields: &[&str],
) -> Mem<()> {
    let numbers = failing(alloc, kind, field(fields, 0))?;
    let mut project = empty(alloc, &numbers)?;
    told_of(alloc, text, &mut project, kind, row, fields)
}

// What is told of a row of this kind.
fn told_kind(alloc: Global, text: &mut String, kind: &str, row: &str) -> Mem<()> {
    let fields = split_row(alloc, row)?;
    told_fields(alloc, text, kind, row, fields.as_slice())
}

/// Adds what is told of a row about the POMs of a project, and the end of its line. Project rule.
pub fn push_told(alloc: Global, row: &str, text: &mut String) -> Mem<()> {
    let (kind, row) = row.split_once(' ').unwrap_or((row, ""));
    told_kind(alloc, text, kind, row)?;
    text.push_str("\n")?;
    Ok(())
}
