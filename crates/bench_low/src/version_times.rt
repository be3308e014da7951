// Which versions a requirement admits.
use mvn_shared::{Mem, Text};
use std::alloc::{AllocError, Global};
use versions::{Requirement, Version};

// Adds the versions that are admitted.
fn push_admitted<'a>(
    admitted: &mut Vec<&'a Version>,
    requirement: &Requirement,
    versions: &'a [Version],
) -> Result<(), AllocError> {
    for version in versions {
        if requirement.admits(version) {
            admitted.push(version)?;
        }
    }
    Ok(())
}

fn print_in_order(rt: &HostRuntime, versions: &mut Vec<&Version>) -> anyhow::Result<()> {
    versions.sort()?;
    for version in versions.as_slice() {
        let version = *version;
        println!(rt; "{version}")?;
    }
    Ok(())
}

// The versions that are admitted, in ascending order.
fn print_admitted(
    rt: &HostRuntime,
    requirement: &Requirement,
    versions: &[Version],
) -> anyhow::Result<()> {
    let mut admitted = Vec::new(rt.alloc());
    push_admitted(&mut admitted, requirement, versions)?;
    print_in_order(rt, &mut admitted)
}

// The highest of them.
fn print_highest(
    rt: &HostRuntime,
    requirement: &Requirement,
    versions: &[Version],
) -> anyhow::Result<()> {
    if versions.len() > 1_000_000 {
        println!(rt; "too many versions")?;
        return Ok(());
    }
    match requirement.highest(versions) {
        Some(place) => println!(rt; "highest {place}")?,
        None => println!(rt; "none")?,
    }
    Ok(())
}

fn print_told(
    rt: &HostRuntime,
    requirement: &Requirement,
    versions: &[Version],
) -> anyhow::Result<()> {
    print_admitted(rt, requirement, versions)?;
    print_highest(rt, requirement, versions)
}

fn version_of(alloc: Global, line: &str) -> Mem<Version> {
    let text = Text::from_str(alloc, line)?;
    Version::parse(alloc, &text)
}

fn push_versions(alloc: Global, versions: &mut Vec<Version>, lines: &str) -> Mem<()> {
    for line in lines.lines() {
        versions.push(version_of(alloc, line)?)?;
    }
    Ok(())
}

fn print_of_lines(rt: &HostRuntime, requirement: &Requirement, lines: &str) -> anyhow::Result<()> {
    let mut versions = Vec::new(rt.alloc());
    push_versions(rt.alloc(), &mut versions, lines)?;
    print_told(rt, requirement, &versions)
}

fn requirement_of(alloc: Global, line: &str) -> anyhow::Result<Requirement> {
    let text = Text::from_str(alloc, line)?;
    Ok(Requirement::parse(alloc, &text)?)
}

fn print_of_texts(rt: &HostRuntime, first: &str, rest: &str) -> anyhow::Result<()> {
    let requirement = requirement_of(rt.alloc(), first)?;
    print_of_lines(rt, &requirement, rest)
}

/// Prints which versions a requirement admits, in ascending order, and the highest. The requirement is the first line, a version each
/// further one; without lines nothing is printed.
pub(crate) fn print(rt: &HostRuntime, lines: &str) -> anyhow::Result<()> {
    match lines.split_once('\n') {
        Some((first, rest)) => print_of_texts(rt, first, rest),
        None => Ok(()),
    }
}
