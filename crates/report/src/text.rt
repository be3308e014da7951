// Writes the report as text.
ghost use Rattle.std.specs.Prelude.{◌≡◌, ◌<◌, ◌++◌, [], take, map, flat_map, codes, IfOk, OnOk};
ghost use Rattle.std.specs.String.{string_bytes};
ghost use Rattle.mvn_base.specs.Gav.{gav_text};
ghost use Rattle.report.specs.Report.{line, device_name, shown_byte, shown, end_text, indented, full_text, row_text, is_built, is_failed, is_skipped, count_of, total_text, report_text};

use crate::row::{FullPart, ReportRow, RowEnd};
use build_core::Device;
use mvn_base::{FileName, Gav};
use mvn_shared::{Bytes, Mem, Text};
use std::alloc::Global;

/// The most bytes of what a goal says that are told.
const MOST_SHOWN: usize = 200;

fn device_name(device: Device) -> &'static str
    ensures { result.now ≡ device_name device }
{
    match device {
        Device::Remote => "remote",
        Device::Area => "area",
        Device::Shelf => "shelf",
        Device::Gate => "gate",
    }
}

// A printable byte itself, for any other `?`.
#[tactic(auto, unfolding(crate::specs::Report::shown_byte))]
fn shown_char(b: u8) -> char
    ensures value { result ≡ shown_byte b }
    ensures ascii { result < 128 }
{
    if b >= 0x20 && b <= 0x7e {
        char::from(b)
    } else {
        '?'
    }
}

// These bytes, as they are shown.
fn shown_bytes(alloc: Global, bytes: &[u8]) -> Mem<String>
    ensures { IfOk result (λ text. string_bytes text ≡ map shown_byte bytes.now) }
{
    let mut text = String::new(alloc);
    for b in bytes {
        text.push(shown_char(*b))?;
    }
    Ok(text)
}

// The bytes at the front that are told of what a goal says.
fn front(bytes: &[u8]) -> &[u8]
    ensures { result.now ≡ take 200 bytes.now }
{
    if bytes.len() <= MOST_SHOWN {
        bytes
    } else {
        &bytes[..MOST_SHOWN]
    }
}

// What a goal says, cut and cleaned.
fn shown(alloc: Global, text: &Text) -> Mem<String>
    ensures { IfOk result (λ told. string_bytes told ≡ shown text.now) }
{
    shown_bytes(alloc, front(text.as_bytes()))
}

// The line of a module that failed, for a reason with a space in front.
#[tactic(auto, unfolding(mvn_base::specs::Gav::gav_text))]
fn failed_line(alloc: Global, gav: &Gav, reason: &str) -> Mem<String>
    ensures { IfOk result (λ text.
        string_bytes text ≡ line (codes "failed " ++ gav_text gav.now ++ reason.now)) }
{
    Ok(format!(in alloc; "failed {gav}{reason}\n")?)
}

// The line of a module that was built.
#[tactic(auto, unfolding(mvn_base::specs::Gav::gav_text))]
fn built_line(alloc: Global, gav: &Gav) -> Mem<String>
    ensures { IfOk result (λ text.
        string_bytes text ≡ line (codes "built " ++ gav_text gav.now)) }
{
    Ok(format!(in alloc; "built {gav}\n")?)
}

// The line of a module that failed at a goal.
#[tactic(auto, unfolding(mvn_base::specs::Gav::gav_text))]
fn goal_line(alloc: Global, gav: &Gav, call: &Text, text: &Text) -> Mem<String>
    ensures { IfOk result (λ told. string_bytes told ≡ line (codes "failed "
        ++ gav_text gav.now ++ codes " goal " ++ call.now ++ codes ": " ++ shown text.now)) }
{
    let text = shown(alloc, text)?;
    Ok(format!(in alloc; "failed {gav} goal {call}: {text}\n")?)
}

// The line of a module for which a file is missing.
#[tactic(auto, unfolding(mvn_base::specs::Gav::gav_text))]
fn missing_line(alloc: Global, gav: &Gav, name: &FileName) -> Mem<String>
    ensures { IfOk result (λ text. string_bytes text
        ≡ line (codes "failed " ++ gav_text gav.now ++ codes " missing " ++ name.now)) }
{
    Ok(format!(in alloc; "failed {gav} missing {name}\n")?)
}

// The line of a module at which a device failed.
#[tactic(auto, unfolding(mvn_base::specs::Gav::gav_text))]
fn fault_line(alloc: Global, gav: &Gav, device: Device) -> Mem<String>
    ensures { IfOk result (λ text. string_bytes text
        ≡ line (codes "failed " ++ gav_text gav.now ++ codes " fault " ++ device_name device)) }
{
    let device = device_name(device);
    Ok(format!(in alloc; "failed {gav} fault {device}\n")?)
}

// The line of a module that was skipped.
#[tactic(auto, unfolding(mvn_base::specs::Gav::gav_text))]
fn skipped_line(alloc: Global, gav: &Gav, upstream: &Gav) -> Mem<String>
    ensures { IfOk result (λ text. string_bytes text
        ≡ line (codes "skipped " ++ gav_text gav.now ++ codes " after " ++ gav_text upstream.now)) }
{
    Ok(format!(in alloc; "skipped {gav} after {upstream}\n")?)
}

// A module's own line.
#[tactic(auto, unfolding(crate::specs::Report::end_text))]
fn end_line(alloc: Global, gav: &Gav, end: &RowEnd) -> Mem<String>
    ensures { IfOk result (λ text. string_bytes text ≡ line (end_text gav.now end.now)) }
{
    match end {
        RowEnd::Built => built_line(alloc, gav),
        RowEnd::Goal { call, text } => goal_line(alloc, gav, call, text),
        RowEnd::Missing(name) => missing_line(alloc, gav, name),
        RowEnd::NoArtifact => failed_line(alloc, gav, " no artifact"),
        RowEnd::OutputTooLarge => failed_line(alloc, gav, " output too large"),
        RowEnd::ClasspathTooLarge => failed_line(alloc, gav, " classpath too large"),
        RowEnd::Fault(device) => fault_line(alloc, gav, *device),
        RowEnd::Memory => failed_line(alloc, gav, " memory"),
        RowEnd::Skipped(upstream) => skipped_line(alloc, gav, upstream),
    }
}

// A line after a module's own.
fn push_indented(out: &mut Vec<u8>, word: &str, text: &[u8]) -> Mem<()>
    ensures { OnOk result (out.new.items ≡ out.old.items ++ indented word.now text.now) }
{
    out.extend_from_slice(b"  ")?;
    out.extend_from_slice(word.as_bytes())?;
    out.extend_from_slice(text)?;
    out.push(b'\n')?;
    Ok(())
}

fn push_notes(out: &mut Vec<u8>, notes: &[Text]) -> Mem<()>
    ensures { OnOk result (out.new.items ≡ out.old.items ++ flat_map (indented []) notes.now) }
{
    for note in notes {
        push_indented(out, "", note.as_bytes())?;
    }
    Ok(())
}

// The files of a classpath.
fn push_files(out: &mut Vec<u8>, word: &str, files: &[FileName]) -> Mem<()>
    ensures { OnOk result
        (out.new.items ≡ out.old.items ++ flat_map (indented word.now) files.now) }
{
    for file in files {
        push_indented(out, word, file.as_text().as_bytes())?;
    }
    Ok(())
}

// What is told of a module besides.
fn push_full(out: &mut Vec<u8>, full: &Option<FullPart>) -> Mem<()>
    ensures { OnOk result (out.new.items ≡ out.old.items ++ full_text full.now) }
{
    if let Some(full) = full {
        push_indented(out, "model ", full.model.as_slice())?;
        push_files(out, "compile ", full.compile.as_slice())?;
        push_files(out, "runtime ", full.runtime.as_slice())?;
        push_files(out, "test ", full.test.as_slice())?;
    }
    Ok(())
}

// A module's part.
fn push_row(alloc: Global, out: &mut Vec<u8>, row: &ReportRow) -> Mem<()>
    ensures { OnOk result (out.new.items ≡ out.old.items ++ row_text row.now) }
{
    let line = end_line(alloc, &row.gav, &row.end)?;
    out.extend_from_slice(line.as_bytes())?;
    push_notes(out, row.notes.as_slice())?;
    push_notes(out, row.tree.as_slice())?;
    push_full(out, &row.full)
}

fn count_built(rows: &[ReportRow]) -> usize
    ensures { result ≡ count_of is_built rows.now }
{
    let mut count = 0;
    for row in rows {
        if let RowEnd::Built = row.end {
            count += 1;
        }
    }
    count
}

fn count_skipped(rows: &[ReportRow]) -> usize
    ensures { result ≡ count_of is_skipped rows.now }
{
    let mut count = 0;
    for row in rows {
        if let RowEnd::Skipped(_) = row.end {
            count += 1;
        }
    }
    count
}

fn count_failed(rows: &[ReportRow]) -> usize
    ensures { result ≡ count_of is_failed rows.now }
{
    let mut count = 0;
    for row in rows {
        match row.end {
            RowEnd::Built | RowEnd::Skipped(_) => {}
            _ => count += 1,
        }
    }
    count
}

/// The last line of the report: how many modules there are, and how many were built, failed and were skipped. Costs the number of
/// rows. Project format.
#[tactic(auto, unfolding(crate::specs::Report::total_text))]
pub fn total_line(alloc: Global, rows: &[ReportRow]) -> Mem<String>
    ensures { IfOk result (λ text. string_bytes text ≡ total_text rows.now) }
{
    let total = rows.len();
    let built = count_built(rows);
    let failed = count_failed(rows);
    let skipped = count_skipped(rows);
    Ok(format!(in alloc; "total {total} built {built} failed {failed} skipped {skipped}\n")?)
}

// The parts of the modules.
fn push_rows(alloc: Global, out: &mut Vec<u8>, rows: &[ReportRow]) -> Mem<()>
    ensures { OnOk result (out.new.items ≡ out.old.items ++ flat_map row_text rows.now) }
{
    for row in rows {
        push_row(alloc, out, row)?;
    }
    Ok(())
}

/// The text of the report: each module's part, in order, and the line of totals. Project format. Costs the time and
/// memory of what it gives.
pub fn report(alloc: Global, rows: &[ReportRow]) -> Mem<Bytes>
    ensures { IfOk result (λ text. text ≡ report_text rows.now) }
{
    let mut out = Vec::new(alloc);
    push_rows(alloc, &mut out, rows)?;
    let total = total_line(alloc, rows)?;
    out.extend_from_slice(total.as_bytes())?;
    Ok(Bytes::of(out))
}
