//! The program `disk_rows` answers rows about the objects of the system, over the folder where it runs: what they do on a disk, which no
//! clause can say.
//!
//! A line of standard input is a word, which says what is asked for, and fields with a space between two of them, as they stand; the
//! answer is printed as one line. A line that begins with `#` is printed as it stands.
//!
//! - `file PATH`, `link PATH TARGET`: makes a file of five bytes, or a link, with the folders above it
//! - `has PATH`, `list PATH`, `read PATH`: what the tree answers, with a limit of 5 bytes
//! - `publish FOLDER BYTES`: whether the repository in the folder takes the bytes as the POM of org.demo:a:1.0; `hidden FOLDER`: as that
//!   of org.demo:.staging:1.0
//! - `sweep FOLDER`, `beside FOLDER`: whether its staging folder can be swept, and whether while another holds a piece there
//! - `fetch FOLDER x..`, `versions FOLDER`: what a remote in the folder answers of that POM, with a limit of so many bytes, and of that
//!   artifact
#![tactic(auto)]

mod making;
mod store;
mod tree;

use mvn_outside::ReadFault;
use mvn_shared::{Bytes, Mem};
use row_fields::word;
use std::alloc::Global;
use std::fs;

/// How many bytes a file has, or why they weren't read.
pub(crate) fn told_of_file(alloc: Global, found: &Result<Option<Bytes>, ReadFault>) -> Mem<String> {
    match found {
        Ok(Some(bytes)) => {
            let len = bytes.len();
            Ok(format!(in alloc; "{len} bytes")?)
        }
        Ok(None) => word(alloc, "no file"),
        Err(ReadFault::TooLarge) => word(alloc, "too large"),
        Err(_) => word(alloc, "a fault"),
    }
}

// What is told of a row that looks at files.
fn told_of_files(rt: &HostRuntime, kind: &str, rest: &str) -> Mem<String> {
    let (folder, bytes) = rest.split_once(' ').unwrap_or((rest, ""));
    match kind {
        "publish" => store::publish(rt, folder, "a", bytes),
        "hidden" => store::publish(rt, folder, ".staging", "pom"),
        "sweep" => store::swept(rt, folder),
        "beside" => store::swept_beside(rt, folder),
        "fetch" => store::fetch(rt, folder, bytes.len() as u64),
        "versions" => store::versions(rt, folder),
        _ => tree::told(rt, kind, rest),
    }
}

// What is told of a row.
fn told(rt: &HostRuntime, kind: &str, rest: &str) -> anyhow::Result<String> {
    match kind {
        "file" => making::file(rt, rest),
        "link" => making::link(rt, rest),
        _ => Ok(told_of_files(rt, kind, rest)?),
    }
}

fn print_told(rt: &HostRuntime, line: &str) -> anyhow::Result<()> {
    let (kind, rest) = line.split_once(' ').unwrap_or((line, ""));
    let answer = told(rt, kind, rest)?;
    println!(rt; "{answer}")?;
    Ok(())
}

// What is told of a line, or the line itself.
fn print_line(rt: &HostRuntime, line: &str) -> anyhow::Result<()> {
    if line.starts_with('#') {
        println!(rt; "{line}")?;
        return Ok(());
    }
    print_told(rt, line)
}

fn main(rt: HostRuntime) -> anyhow::Result<()> {
    fs::create_dir_all(&rt, "empty")?;
    for line in rt.lines(rt.alloc()) {
        let line = line?;
        print_line(&rt, line.as_str())?;
    }
    Ok(())
}
