// What is told of a plan.
use crate::modules::{push_module, push_numbers};
use crate::told::push_number;
use build_core::{Plan, PlanModule};
use mvn_base::FileName;
use mvn_shared::{Mem, Text};
use std::alloc::Global;

/// What is told of a plan.
#[derive(Clone, Copy)]
pub enum Shown {
    /// The artifacts of the modules in their order, each with the places of those that it stands on.
    Order,
    /// The names and the files, and a line for each module.
    Whole,
    /// How many modules, names and files there are, the workers, the events, and the first module's budget.
    Counts,
}

// A module's artifact, and the places of those that it stands on.
fn push_placed(alloc: Global, text: &mut String, module: &PlanModule) -> Mem<()> {
    if !text.is_empty() {
        text.push_str("; ")?;
    }
    text.push_str(module.gav.artifact.as_str())?;
    push_numbers(alloc, text, " on ", module.upstream.as_slice())
}

// The artifacts of the modules in their order, each with the places of those that it stands on.
fn push_order(alloc: Global, text: &mut String, plan: &Plan) -> Mem<()> {
    for module in plan.modules.as_slice() {
        push_placed(alloc, text, module)?;
    }
    Ok(())
}

// How many modules, names and files there are, the workers, the events, and the first module's budget.
fn push_counts(alloc: Global, text: &mut String, plan: &Plan) -> Mem<()> {
    let budget = match plan.modules.get(0) {
        Some(module) => module.budget,
        None => 0,
    };
    push_number(alloc, text, "modules ", plan.modules.len() as u64)?;
    push_number(alloc, text, " names ", plan.names.len() as u64)?;
    push_number(alloc, text, " files ", plan.files.len() as u64)?;
    push_number(alloc, text, " workers ", u64::from(plan.workers))?;
    push_number(alloc, text, " events ", plan.events)?;
    push_number(alloc, text, " budget ", budget)
}

// The names that are locked.
fn push_names(text: &mut String, names: &[Text]) -> Mem<()> {
    text.push_str("names")?;
    for name in names {
        text.push_str(" ")?;
        text.push_str(name.as_str())?;
    }
    Ok(())
}

// A file, with a star where it is there.
fn push_file(text: &mut String, name: &FileName, present: Option<&bool>) -> Mem<()> {
    text.push_str(" ")?;
    text.push_str(name.as_text().as_str())?;
    if let Some(true) = present {
        text.push_str("*")?;
    }
    Ok(())
}

// The files of a plan.
fn push_files(text: &mut String, plan: &Plan) -> Mem<()> {
    let names = plan.files.as_slice();
    text.push_str("\nfiles")?;
    for at in 0..names.len() {
        push_file(text, &names[at], plan.present.get(at))?;
    }
    Ok(())
}

// The names and the files of a plan, and a line for each module.
fn push_whole(alloc: Global, text: &mut String, plan: &Plan) -> Mem<()> {
    push_names(text, plan.names.as_slice())?;
    push_files(text, plan)?;
    for module in plan.modules.as_slice() {
        push_module(alloc, text, module)?;
    }
    Ok(())
}

/// A plan as it is told, written into an empty text.
pub fn push_plan(alloc: Global, text: &mut String, plan: &Plan, shown: Shown) -> Mem<()> {
    match shown {
        Shown::Order => push_order(alloc, text, plan),
        Shown::Whole => push_whole(alloc, text, plan),
        Shown::Counts => push_counts(alloc, text, plan),
    }
}
