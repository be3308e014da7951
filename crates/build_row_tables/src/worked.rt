// The projects of the worked rows: a root and three modules.
use mvn_shared::Mem;
use std::alloc::Global;
use test_projects::Project;
use test_projects::project::{put_file, put_library, put_library_names, put_module};

const ROOT: &str =
    "<packaging>pom</packaging><modules><module>a</module><module>b</module><module>c</module></modules>";

const NEEDS_LIBRARY: &str =
    "<dependencies><dependency><groupId>x</groupId><artifactId>y</artifactId><version>1</version></dependency></dependencies>";

const NEEDS_A: &str =
    "<dependencies><dependency><groupId>demo</groupId><artifactId>a</artifactId><version>1</version></dependency></dependencies>";

// A root with the modules `a`, `b` and `c`, of which `b` has this in its POM.
fn put_three(alloc: Global, project: &mut Project, inside: &str) -> Mem<()> {
    put_module(alloc, project, "pom.xml", "root", ROOT)?;
    put_module(alloc, project, "a/pom.xml", "a", "")?;
    put_module(alloc, project, "b/pom.xml", "b", inside)?;
    put_module(alloc, project, "c/pom.xml", "c", "")
}

/// A root with three modules, of which none needs another.
pub(crate) fn put_independent(alloc: Global, project: &mut Project) -> Mem<()> {
    put_three(alloc, project, "")
}

/// The same where `b` needs the library x:y:1, which the remote repository has.
pub(crate) fn put_fetching(alloc: Global, project: &mut Project) -> Mem<()> {
    put_three(alloc, project, NEEDS_LIBRARY)?;
    put_library(alloc, &mut project.remote, "y", "", true)?;
    put_library_names(alloc, project, "y")
}

/// A root with three modules, where the tests of `a` fail and `b` needs `a`.
pub(crate) fn put_failing(alloc: Global, project: &mut Project) -> Mem<()> {
    put_three(alloc, project, NEEDS_A)?;
    put_file(
        alloc,
        project,
        "a/src/test/java/fail-test",
        "1 test failed".as_bytes(),
    )
}
