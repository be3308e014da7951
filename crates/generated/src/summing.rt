// The summary in place of the report.
ghost use Rattle.std.specs.Prelude.{◌≡◌, IfOk};
ghost use Rattle.make_project.specs.Summaries.{summary_with};
ghost use Rattle.generated.specs.LastLines.{last_line};
ghost use Rattle.generated.specs.Summary.{IsSummedUp};

use crate::counts::entries_of;
use build_outcome::Outcome;
use make_project::summary_with;
use module_plan::Planned;
use mvn_shared::Mem;
use std::alloc::Global;

// The last line of a text, with its line feed.
fn last_line(alloc: Global, text: &[u8]) -> Mem<Vec<u8>>
    ensures { IfOk result (λ line. line.items ≡ last_line text.now) }
{
    let mut line = Vec::new(alloc);
    let mut ended = false;
    for b in text {
        if ended {
            line.clear();
        }
        line.push(*b)?;
        ended = *b == b'\n';
    }
    Ok(line)
}

// What is answered of a report: the summary, with the line of totals, which is the report's last.
fn summed(alloc: Global, poms: u32, report: &Outcome, entries: u64, files: u64) -> Mem<Outcome>
    ensures { IfOk result (λ answer. answer ≡ record report.now {
      text = summary_with poms (last_line report.now.text) entries files;
    }) }
{
    let total = last_line(alloc, report.text.as_slice())?;
    let text = summary_with(alloc, poms, &total, entries, files)?;
    Ok(Outcome {
        text,
        status: report.status,
    })
}

/// The summary of a build of this plan with this report, after which the repository has so many files; where there is
/// no report, why. Costs the report's length, and the types of what the modules are built with. Project rule.
pub fn summary_of(
    alloc: Global,
    poms: u32,
    planned: &Planned,
    report: &Mem<Outcome>,
    files: u64,
) -> Mem<Outcome>
    ensures summed { IfOk result (IsSummedUp poms planned.now files report.now) }
{
    let entries = entries_of(alloc, planned.resolutions.as_slice())?;
    match report {
        Ok(report) => summed(alloc, poms, report, entries, files),
        Err(error) => Err(*error),
    }
}
