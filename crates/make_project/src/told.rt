// What is told of a build of the generated project.
ghost use Rattle.std.specs.Prelude.{◌≡◌, ◌++◌, IfOk, OnOk};
ghost use Rattle.std.specs.Fmt.{decimal};
ghost use Rattle.report.specs.Report.{line};
ghost use Rattle.make_project.specs.Summaries.{summary_text, summary_with};

use mvn_shared::{Bytes, Mem};
use report::{ReportRow, total_line};
use std::alloc::Global;

// A line with a label and a number after it.
fn push_line(alloc: Global, text: &mut Vec<u8>, label: &str, number: u64) -> Mem<()>
    ensures { OnOk result (text.new.items ≡ text.old.items ++ line (label.now ++ decimal number)) }
{
    let line = format!(in alloc; "{label}{number}\n")?;
    text.extend_from_slice(line.as_bytes())?;
    Ok(())
}

/// What is told of a build of the generated project of so many POMs in place of the report, with this line of totals.
/// Costs its length. Project rule.
#[tactic(auto, unfolding(crate::specs::Summaries::summary_with))]
pub fn summary_with(alloc: Global, poms: u32, total: &[u8], entries: u64, files: u64) -> Mem<Bytes>
    ensures { IfOk result (λ text. text ≡ summary_with poms total.now entries files) }
{
    let mut text = Vec::new(alloc);
    push_line(alloc, &mut text, "generated ", u64::from(poms))?;
    text.extend_from_slice(total)?;
    push_line(alloc, &mut text, "classpath entries ", entries)?;
    push_line(alloc, &mut text, "files ", files)?;
    Ok(Bytes::of(text))
}

/// What is told of a build of the generated project of so many POMs in place of the report, in four lines: their
/// number; how many modules were built, failed and were skipped, as the report tells it; how many entries their
/// classpaths for tests have together; and how many files are in the repository then. Costs the number of rows. Project
/// rule.
pub fn summary(alloc: Global, poms: u32, rows: &[ReportRow], entries: u64, files: u64) -> Mem<Bytes>
    ensures { IfOk result (λ text. text ≡ summary_text poms rows.now entries files) }
{
    let total = total_line(alloc, rows)?;
    summary_with(alloc, poms, total.as_bytes(), entries, files)
}
