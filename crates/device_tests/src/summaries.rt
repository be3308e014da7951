// What is told of a build of the generated project (`make_project`).
use make_project::summary;
use mvn_shared::Mem;

const OF_NONE: &str =
    "generated 3\ntotal 0 built 0 failed 0 skipped 0\nclasspath entries 1\nfiles 2\n";

#[test]
fn summary_of_no_rows(rt: HostRuntime) -> Mem<()> {
    let told = summary(rt.alloc(), 3, &[], 1, 2)?;
    assert!(rt; told.as_slice() == OF_NONE.as_bytes());
    Ok(())
}
