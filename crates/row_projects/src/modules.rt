// What is told of a module of a plan.
use crate::told::push_number;
use build_core::{Entry, Origin, OwnFile, PlanModule};
use goal_types::{Slot, SourceFile};
use mvn_shared::Mem;
use std::alloc::Global;

/// A word and numbers, with a comma between two of them; a hyphen where there is none.
pub(crate) fn push_numbers(
    alloc: Global,
    text: &mut String,
    word: &str,
    numbers: &[u32],
) -> Mem<()> {
    if numbers.is_empty() {
        text.push_str(word)?;
        text.push_str("-")?;
    }
    for at in 0..numbers.len() {
        let front = if at == 0 { word } else { "," };
        push_number(alloc, text, front, u64::from(numbers[at]))?;
    }
    Ok(())
}

fn slot_word(slot: Slot) -> &'static str {
    match slot {
        Slot::Nowhere => "nowhere",
        Slot::Pom => "pom",
        Slot::Classes => "classes",
        Slot::TestClasses => "test-classes",
        Slot::Main => "main",
        Slot::Tests => "tests",
        Slot::Sources => "sources",
        Slot::Javadoc => "javadoc",
    }
}

// A place, and a number after it.
fn push_slot(alloc: Global, text: &mut String, slot: Slot, number: u32) -> Mem<()> {
    text.push_str(" ")?;
    text.push_str(slot_word(slot))?;
    push_number(alloc, text, " ", u64::from(number))
}

// The files that a module is installed as.
fn push_own(alloc: Global, text: &mut String, own: &[OwnFile]) -> Mem<()> {
    text.push_str(" own")?;
    for file in own {
        push_slot(alloc, text, file.slot, file.file)?;
    }
    Ok(())
}

// Where an entry comes from.
fn push_origin(alloc: Global, text: &mut String, origin: &Origin) -> Mem<()> {
    match origin {
        Origin::File(number) => push_number(alloc, text, " from file ", u64::from(*number))?,
        Origin::Module(place, slot) => {
            push_number(alloc, text, " from module ", u64::from(*place))?;
            text.push_str(" ")?;
            text.push_str(slot_word(*slot))?;
        }
        Origin::Nothing => text.push_str(" from nothing")?,
    }
    Ok(())
}

// On which classpaths an entry is.
fn push_paths(text: &mut String, entry: &Entry) -> Mem<()> {
    if entry.compile {
        text.push_str(" compile")?;
    }
    if entry.runtime {
        text.push_str(" runtime")?;
    }
    if entry.test {
        text.push_str(" test")?;
    }
    Ok(())
}

fn push_entry(alloc: Global, text: &mut String, entry: &Entry) -> Mem<()> {
    text.push_str("\n  entry ")?;
    text.push_str(entry.name.as_text().as_str())?;
    push_paths(text, entry)?;
    push_origin(alloc, text, &entry.origin)
}

fn push_entries(alloc: Global, text: &mut String, entries: &[Entry]) -> Mem<()> {
    for entry in entries {
        push_entry(alloc, text, entry)?;
    }
    Ok(())
}

fn push_sources(text: &mut String, sources: &[SourceFile]) -> Mem<()> {
    for source in sources {
        text.push_str("\n  source ")?;
        text.push_str(source.path.as_str())?;
    }
    Ok(())
}

// Its goals and what it may keep.
fn push_rest(alloc: Global, text: &mut String, module: &PlanModule) -> Mem<()> {
    push_number(alloc, text, " name ", u64::from(module.own_name))?;
    push_number(alloc, text, " goals ", module.goals.len() as u64)?;
    if module.installs {
        text.push_str(" installs")?;
    }
    if module.needs_artifact {
        text.push_str(" artifact")?;
    }
    Ok(())
}

/// A line of a module, with a line for each entry and each source.
pub(crate) fn push_module(alloc: Global, text: &mut String, module: &PlanModule) -> Mem<()> {
    text.push_str("\n")?;
    text.push_str(module.gav.artifact.as_str())?;
    push_numbers(alloc, text, " on ", module.upstream.as_slice())?;
    push_numbers(alloc, text, " batch ", module.batch.as_slice())?;
    push_numbers(alloc, text, " fetch ", module.fetch.as_slice())?;
    push_own(alloc, text, module.own.as_slice())?;
    push_rest(alloc, text, module)?;
    push_entries(alloc, text, module.entries.as_slice())?;
    push_sources(text, module.sources.as_slice())
}
