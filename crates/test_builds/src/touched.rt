// What a build may leave, beside one by one worker without faults.
use crate::Left;
use mvn_shared::Mem;
use outside_mem::Calls;
use std::alloc::{AllocError, Global};
use test_projects::{Project, all_stand, are_whole, same_at};

// How many names have a file.
fn count(left: &Left<Calls>) -> u64 {
    let mut count = 0u64;
    for file in left.files.as_slice() {
        if file.is_some() {
            count = count.wrapping_add(1);
        }
    }
    count
}

// The coordinates in a line of a report, after its first word.
fn coordinates(line: &str) -> &str {
    let (_, rest) = line.split_once(' ').unwrap_or(("", line));
    let (coordinates, _) = rest.split_once(' ').unwrap_or((rest, ""));
    coordinates
}

// Whether the lines of these coordinates differ.
fn differ(calm: &[&str], left: &[&str], wanted: &str) -> bool {
    for at in 0..calm.len() {
        if at < left.len() && coordinates(calm[at]) == wanted {
            return calm[at] != left[at];
        }
    }
    false
}

// Whether a module's line may differ from that without faults: it ended by a fault, or a module that it needs has another line too.
fn may_differ(calm: &[&str], left: &[&str], line: &str) -> bool {
    if line.starts_with("total ") {
        return true;
    }
    if line.starts_with("failed ") {
        return line.contains(" fault ");
    }
    match line.split_once(" after ") {
        Some((_, needed)) => line.starts_with("skipped ") && differ(calm, left, needed),
        None => false,
    }
}

// Whether each line of a report is that without faults, but for those that may differ.
fn lines_are_whole(calm: &[&str], left: &[&str]) -> bool {
    for at in 0..calm.len() {
        if at >= left.len() {
            return false;
        }
        if calm[at] != left[at] && !may_differ(calm, left, left[at]) {
            return false;
        }
    }
    calm.len() == left.len()
}

fn lines(alloc: Global, text: &str) -> Result<Vec<&str>, AllocError> {
    text.lines().collect(alloc)
}

// The lines before one that says that the repository isn't settled.
fn before_settle<'a>(text: &'a str) -> &'a str {
    text.strip_suffix("fault settle\n").unwrap_or(text)
}

// Whether a report may stand where the other stands without faults.
fn is_report(alloc: Global, calm: &str, left: &str) -> Mem<bool> {
    let calm = lines(alloc, calm)?;
    let left = lines(alloc, before_settle(left))?;
    Ok(lines_are_whole(&calm, &left))
}

// Whether a name is that of a file of a module with this artifact.
fn is_of(name: &str, artifact: &str) -> bool {
    match name.strip_prefix("demo/") {
        Some(rest) => match rest.strip_prefix(artifact) {
            Some(rest) => rest.starts_with("/"),
            None => false,
        },
        None => false,
    }
}

// Whether all files of a module are those of the build without faults.
fn are_installed(
    project: &Project,
    calm: &Left<Calls>,
    left: &Left<Calls>,
    artifact: &str,
) -> bool {
    let names = project.names.as_slice();
    for at in 0..names.len() {
        if is_of(names[at].as_text().as_str(), artifact)
            && !same_at(calm.files.as_slice(), left.files.as_slice(), at)
        {
            return false;
        }
    }
    true
}

// Whether each module that its line in the report tells as built has all files of the build without faults.
fn built_are_installed(
    project: &Project,
    calm: &Left<Calls>,
    left: &Left<Calls>,
    report: &str,
) -> bool {
    for line in report.lines() {
        if let Some(rest) = line.strip_prefix("built demo:") {
            let (artifact, _) = rest.split_once(':').unwrap_or((rest, ""));
            if !are_installed(project, calm, left, artifact) {
                return false;
            }
        }
    }
    true
}

// Whether each file is one from before or one of the build without faults.
fn files_are_whole(project: &Project, calm: &Left<Calls>, left: &Left<Calls>) -> bool {
    are_whole(
        project.names.as_slice(),
        project.local.as_slice(),
        calm.files.as_slice(),
        left.files.as_slice(),
    )
}

// Whether files and answers are as they may be, whatever the report says.
fn parts_are_whole(project: &Project, calm: &Left<Calls>, left: &Left<Calls>) -> bool {
    files_are_whole(project, calm, left)
        && count(left) == left.shelf.names()
        && all_stand(left.answers.as_slice(), calm.answers.as_slice())
}

/// Whether a build with faults left each name whole, and each module as without them that no fault touched.
pub(crate) fn is_untouched(
    alloc: Global,
    project: &Project,
    calm: &Left<Calls>,
    left: &Left<Calls>,
) -> Mem<bool> {
    if !parts_are_whole(project, calm, left) {
        return Ok(false);
    }
    let report = left.text();
    if report.starts_with("fault ") {
        let files = left.shelf.names();
        return Ok(left.status == 3 && files == project.local.len() as u64);
    }
    if !built_are_installed(project, calm, left, report) {
        return Ok(false);
    }
    is_report(alloc, calm.text(), report)
}

/// Whether two builds left the same status, report and files, and were answered the same, in any order.
pub(crate) fn leave_same(one: &Left<Calls>, many: &Left<Calls>) -> bool {
    let answers = one.answers.as_slice();
    let others = many.answers.as_slice();
    one.status == many.status
        && one.report == many.report
        && one.shelf.names() == many.shelf.names()
        && one.files.as_slice() == many.files.as_slice()
        && answers.len() == others.len()
        && all_stand(answers, others)
}
