// The plans of projects.
use crate::planning::{Failing, NONE, push_planned};
use mvn_shared::Mem;
use row_models::{field, split_row};
use row_projects::{Files, Shown, no_files, push_number, put_fields, put_many, put_wide};
use std::alloc::Global;

// What is told of the plan of a row's files for its words, or why there is none.
fn push_row(
    alloc: Global,
    text: &mut String,
    files: &mut Files,
    fields: &[&str],
    shown: Shown,
) -> Mem<()> {
    put_fields(alloc, files, fields)?;
    push_planned(alloc, text, files, field(fields, 0), NONE, shown)
}

// The modules in their order, for words, where a device's call fails.
fn push_order(
    alloc: Global,
    text: &mut String,
    files: &mut Files,
    words: &str,
    fields: &[&str],
    failing: Failing,
) -> Mem<()> {
    put_fields(alloc, files, fields)?;
    push_planned(alloc, text, files, words, failing, Shown::Order)
}

// The modules in their order where a call fails: the first field is the device, the call's number, and the words.
fn push_failing(alloc: Global, text: &mut String, files: &mut Files, fields: &[&str]) -> Mem<()> {
    let first = field(fields, 0);
    let (device, rest) = first.split_once(' ').unwrap_or((first, ""));
    let (number, words) = rest.split_once(' ').unwrap_or((rest, ""));
    let number = number.parse::<u64>().unwrap_or(0);
    push_order(alloc, text, files, words, fields, (device, number))
}

// How many calls fail, and what is told once none does.
fn push_last(alloc: Global, text: &mut String, number: u64, told: &str) -> Mem<()> {
    push_number(alloc, text, "", number)?;
    text.push_str(" faults, then ")?;
    text.push_str(told)?;
    Ok(())
}

// How many calls of a device there are: each fails in turn, and is named; and the modules in their order after that. What is told of each is
// written into `told`.
fn push_faults(
    alloc: Global,
    text: &mut String,
    told: &mut String,
    files: &mut Files,
    fields: &[&str],
) -> Mem<()> {
    let first = field(fields, 0);
    let (device, words) = first.split_once(' ').unwrap_or((first, ""));
    for number in 0..1000u64 {
        told.clear();
        push_order(alloc, told, files, words, fields, (device, number))?;
        if told.as_str().strip_prefix("fault ") != Some(device) {
            return push_last(alloc, text, number, told.as_str());
        }
    }
    text.push_str(told.as_str())?;
    Ok(())
}

// The counts of the plan of a root and so many modules, or the modules in their order of a project with so many sources. The root's text
// is written into `root`.
fn push_sized(
    alloc: Global,
    text: &mut String,
    root: &mut String,
    files: &mut Files,
    kind: &str,
    row: &str,
) -> Mem<()> {
    let (number, words) = row.split_once(' ').unwrap_or((row, ""));
    let count = number.parse::<u32>().unwrap_or(0);
    if kind == "wide" {
        put_wide(alloc, files, root, count)?;
        return push_planned(alloc, text, files, words, NONE, Shown::Counts);
    }
    put_many(alloc, files, count)?;
    push_planned(alloc, text, files, words, NONE, Shown::Order)
}

// What is told of a row over no files yet; `other` is an empty text to write into.
fn push_kind(
    alloc: Global,
    text: &mut String,
    other: &mut String,
    files: &mut Files,
    kind: &str,
    row: &str,
    fields: &[&str],
) -> Mem<()> {
    match kind {
        "order" => push_row(alloc, text, files, fields, Shown::Order),
        "plan" => push_row(alloc, text, files, fields, Shown::Whole),
        "count" => push_row(alloc, text, files, fields, Shown::Counts),
        "failing" => push_failing(alloc, text, files, fields),
        "faults" => push_faults(alloc, text, other, files, fields),
        _ => push_sized(alloc, text, other, files, kind, row),
    }
}

// What is told of a row of this kind.
fn push_any(alloc: Global, text: &mut String, kind: &str, row: &str) -> Mem<()> {
    let fields = split_row(alloc, row)?;
    let mut files = no_files(alloc);
    let mut other = String::new(alloc);
    push_kind(
        alloc,
        text,
        &mut other,
        &mut files,
        kind,
        row,
        fields.as_slice(),
    )
}

/// Adds what is told of a row about a plan, and the end of its line. Project rule.
pub fn push_told(alloc: Global, row: &str, text: &mut String) -> Mem<()> {
    let (kind, row) = row.split_once(' ').unwrap_or((row, ""));
    push_any(alloc, text, kind, row)?;
    text.push_str("\n")?;
    Ok(())
}
