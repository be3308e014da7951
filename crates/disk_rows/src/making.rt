// Rows that make what the others look at.
use row_fields::word;
use std::fs;
use std::os::unix::fs::symlink;

fn make_folders_above(rt: &HostRuntime, path: &str) -> anyhow::Result<()> {
    if let Some((folder, _)) = path.rsplit_once('/') {
        fs::create_dir_all(rt, folder)?;
    }
    Ok(())
}

/// Makes a file of five bytes.
pub(crate) fn file(rt: &HostRuntime, path: &str) -> anyhow::Result<String> {
    make_folders_above(rt, path)?;
    fs::write(rt, path, "bytes")?;
    Ok(word(rt.alloc(), "made")?)
}

/// Makes a link.
pub(crate) fn link(rt: &HostRuntime, rest: &str) -> anyhow::Result<String> {
    let (path, target) = rest.split_once(' ').unwrap_or((rest, ""));
    make_folders_above(rt, path)?;
    symlink(rt, target, path)?;
    Ok(word(rt.alloc(), "made")?)
}
