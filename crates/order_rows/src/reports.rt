// The report of one module.
use crate::numbers::split_section;
use build_core::Device;
use mvn_base::{FileName, Gav};
use mvn_shared::{Bytes, List, Mem, Text};
use report::{FullPart, ReportRow, RowEnd, report};
use row_fields::{file_name, gav};
use std::alloc::Global;

// A text with line feeds for its tildes.
fn text(alloc: Global, spelled: &str) -> Mem<Text> {
    Ok(Text::of(spelled.replace(alloc, '~', "\n")?))
}

// The coordinates demo:NAME:1.
fn demo(alloc: Global, name: &str) -> Mem<Gav> {
    gav(alloc, "demo", name, "1")
}

// A goal's end: the goal, and what it says.
fn goal_end(alloc: Global, sections: &str) -> Mem<RowEnd> {
    let (call, said) = split_section(sections);
    let call = text(alloc, call)?;
    let text = text(alloc, said.trim())?;
    Ok(RowEnd::Goal { call, text })
}

// How the module ended.
fn end(alloc: Global, sections: &str) -> Mem<RowEnd> {
    let (word, others) = split_section(sections);
    match word {
        "goal" => goal_end(alloc, others),
        "skipped" => Ok(RowEnd::Skipped(demo(alloc, others.trim())?)),
        "no artifact" => Ok(RowEnd::NoArtifact),
        "fault" => Ok(RowEnd::Fault(Device::Gate)),
        _ => Ok(RowEnd::Built),
    }
}

// Bytes of ASCII with tildes for their line feeds.
fn spelled(alloc: Global, bytes: &[u8]) -> Mem<String> {
    let text = std::str::from_utf8(bytes).unwrap_or("");
    Ok(text.replace(alloc, '\n', "~")?)
}

fn spelled_report(alloc: Global, rows: &[ReportRow]) -> Mem<String> {
    let report = report(alloc, rows)?;
    spelled(alloc, report.as_slice())
}

fn row_of(
    alloc: Global,
    gav: Gav,
    end: RowEnd,
    notes: List<Text>,
    full: Option<FullPart>,
) -> ReportRow {
    ReportRow {
        gav,
        end,
        notes,
        tree: List::new(alloc),
        full,
    }
}

// The row of a module demo:a:1 that ended so.
fn ended_row(alloc: Global, sections: &str) -> Mem<ReportRow> {
    let gav = demo(alloc, "a")?;
    let end = end(alloc, sections)?;
    Ok(row_of(alloc, gav, end, List::new(alloc), None))
}

// The report of rows with that one besides.
fn ended_report(alloc: Global, rows: &mut List<ReportRow>, sections: &str) -> Mem<String> {
    rows.push(ended_row(alloc, sections)?)?;
    spelled_report(alloc, rows.as_slice())
}

/// The report of a module demo:a:1 that ended so.
pub(crate) fn report_row(alloc: Global, sections: &str) -> Mem<String> {
    let mut rows = List::new(alloc);
    ended_report(alloc, &mut rows, sections)
}

// The name of a jar.
fn jar_of(alloc: Global, gav: &Gav) -> Mem<Option<FileName>> {
    let none = Text::of(String::new(alloc));
    let jar = Text::from_str(alloc, "jar")?;
    file_name(alloc, gav, &none, &jar)
}

fn push_jar(alloc: Global, jars: &mut List<FileName>, gav: &Gav) -> Mem<()> {
    if let Some(jar) = jar_of(alloc, gav)? {
        jars.push(jar)?;
    }
    Ok(())
}

fn push_jar_named(alloc: Global, jars: &mut List<FileName>, name: &str) -> Mem<()> {
    let gav = demo(alloc, name)?;
    push_jar(alloc, jars, &gav)
}

// Adds the jars of demo:NAME:1 for these names.
fn push_jars(alloc: Global, jars: &mut List<FileName>, names: &str) -> Mem<()> {
    for name in names.split_whitespace() {
        push_jar_named(alloc, jars, name)?;
    }
    Ok(())
}

fn no_part(alloc: Global) -> FullPart {
    FullPart {
        model: Bytes::of(Vec::new(alloc)),
        compile: List::new(alloc),
        runtime: List::new(alloc),
        test: List::new(alloc),
    }
}

// Adds a model and the names of jars.
fn put_part(alloc: Global, part: &mut FullPart, model: &str, sections: &str) -> Mem<()> {
    let (compile, others) = split_section(sections);
    let (runtime, test) = split_section(others);
    part.model.extend_from_slice(model.as_bytes())?;
    push_jars(alloc, &mut part.compile, compile)?;
    push_jars(alloc, &mut part.runtime, runtime)?;
    push_jars(alloc, &mut part.test, test)
}

// The part with a model and the names of jars.
fn full_part(alloc: Global, model: &str, sections: &str) -> Mem<FullPart> {
    let mut part = no_part(alloc);
    put_part(alloc, &mut part, model, sections)?;
    Ok(part)
}

fn notes(alloc: Global, note: &str) -> Mem<List<Text>> {
    let mut notes = List::new(alloc);
    notes.push(text(alloc, note.trim())?)?;
    Ok(notes)
}

// The row of a built module demo:a:1 with a model, the names of its jars and a note.
fn built_row(alloc: Global, model: &str, names: &str, note: &str) -> Mem<ReportRow> {
    let notes = notes(alloc, note)?;
    let gav = demo(alloc, "a")?;
    let full = full_part(alloc, model, names)?;
    Ok(row_of(alloc, gav, RowEnd::Built, notes, Some(full)))
}

// The report of rows with one besides, which has these sections and this note.
fn built_report(
    alloc: Global,
    rows: &mut List<ReportRow>,
    sections: &str,
    note: &str,
) -> Mem<String> {
    let (model, names) = split_section(sections);
    rows.push(built_row(alloc, model, names, note)?)?;
    spelled_report(alloc, rows.as_slice())
}

/// The report of a built module demo:a:1 with a model, the names of its jars and a note.
pub(crate) fn full_row(alloc: Global, sections: &str) -> Mem<String> {
    let (sections, note) = sections.rsplit_once('/').unwrap_or((sections, ""));
    let mut rows = List::new(alloc);
    built_report(alloc, &mut rows, sections, note)
}
