// What a build leaves.
use build_core::Answered;
use mvn_call::Ended;
use mvn_shared::{Bytes, List, Mem};
use outside_mem::{Failures, MemShelf};
use std::alloc::Global;
use test_projects::{Project, put_files_under};

/// What a build leaves: the exit status, the text that it wrote, the files under a project's names, the answers of its
/// goals, and the repository.
#[derive(Drop)]
pub struct Left<F> {
    pub status: u8,
    pub report: Bytes,
    pub files: List<Option<Bytes>>,
    pub answers: List<Answered>,
    pub shelf: MemShelf<F>,
}

impl<F> Left<F> {
    /// The text that the build wrote.
    pub fn text(&self) -> &str {
        match std::str::from_utf8(self.report.as_slice()) {
            Ok(text) => text,
            Err(_) => "no text\n",
        }
    }
}

// Adds what the sink has, and the files under the project's names.
fn put_left<F: Failures>(project: &Project, left: &mut Left<F>, sink: &[u8]) -> Mem<()> {
    left.report.extend_from_slice(sink)?;
    put_files_under(&mut left.shelf, project.names.as_slice(), &mut left.files)
}

// What the call left, without its text and its files.
fn ended_so<F: Drop>(alloc: Global, ended: Ended<MemShelf<F>>) -> Left<F> {
    let Ended {
        status,
        devices: shelf,
        answers,
        ..
    } = ended;
    Left {
        status,
        report: Bytes::of(Vec::new(alloc)),
        files: List::new(alloc),
        answers,
        shelf,
    }
}

/// What is left where the call ended so, after which the sink has this.
pub(crate) fn left_of<F: Failures + Drop>(
    alloc: Global,
    project: &Project,
    ended: Ended<MemShelf<F>>,
    sink: &[u8],
) -> Mem<Left<F>> {
    let mut left = ended_so(alloc, ended);
    put_left(project, &mut left, sink)?;
    Ok(left)
}
