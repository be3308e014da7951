// Projects that are made from a number.
use crate::draws::Draws;
use crate::project::{
    Project, dependencies, empty, push_dependency, put_file, put_library, put_library_names,
    put_module,
};
use mvn_shared::Mem;
use std::alloc::Global;

/// How many libraries there are.
const LIBRARIES: u32 = 6;

// The artifact of the module with this number.
fn module_name(alloc: Global, number: u32) -> Mem<String> {
    Ok(format!(in alloc; "m{number}")?)
}

// The artifact of the library with this number.
fn library_name(alloc: Global, number: u32) -> Mem<String> {
    Ok(format!(in alloc; "l{number}")?)
}

// One of so many of the libraries below this number, as dependencies.
fn push_libraries(alloc: Global, list: &mut String, draws: &mut Draws, bound: u32) -> Mem<()> {
    for number in 0..bound {
        if draws.one_in(4) {
            let name = library_name(alloc, number)?;
            push_dependency(alloc, list, "x", name.as_str())?;
        }
    }
    Ok(())
}

// One of so many of the modules below this number, as dependencies.
fn push_modules(alloc: Global, list: &mut String, draws: &mut Draws, bound: u32) -> Mem<()> {
    for number in 0..bound {
        if draws.one_in(8) {
            let name = module_name(alloc, number)?;
            push_dependency(alloc, list, "demo", name.as_str())?;
        }
    }
    Ok(())
}

// A library in the remote repository, its jar mostly beside its POM, and perhaps in the local one too.
fn put_both(
    alloc: Global,
    project: &mut Project,
    draws: &mut Draws,
    name: &str,
    inside: &str,
) -> Mem<()> {
    put_library(alloc, &mut project.remote, name, inside, !draws.one_in(8))?;
    if draws.one_in(3) {
        put_library(alloc, &mut project.local, name, inside, draws.one_in(2))?;
    }
    put_library_names(alloc, project, name)
}

// What is in the POM of the library with this number: it needs some of those before it.
fn library_inside(alloc: Global, draws: &mut Draws, number: u32) -> Mem<String> {
    let mut list = String::new(alloc);
    push_libraries(alloc, &mut list, draws, number)?;
    dependencies(alloc, list.as_str())
}

fn put_drawn(alloc: Global, project: &mut Project, draws: &mut Draws, number: u32) -> Mem<()> {
    let name = library_name(alloc, number)?;
    let inside = library_inside(alloc, draws, number)?;
    put_both(alloc, project, draws, name.as_str(), inside.as_str())
}

// A module's sources: some code, and perhaps a file that makes a goal fail.
fn put_sources(alloc: Global, project: &mut Project, draws: &mut Draws, name: &str) -> Mem<()> {
    if draws.one_in(2) {
        let path = format!(in alloc; "{name}/src/main/java/A")?;
        put_file(alloc, project, path.as_str(), name.as_bytes())?;
    }
    if draws.one_in(24) {
        let path = format!(in alloc; "{name}/src/test/java/fail-test")?;
        put_file(alloc, project, path.as_str(), "1 test failed".as_bytes())?;
    }
    Ok(())
}

// What is in the POM of the module with this number: it needs some of the libraries and of the modules before it.
fn module_inside(alloc: Global, draws: &mut Draws, number: u32) -> Mem<String> {
    let mut list = String::new(alloc);
    push_modules(alloc, &mut list, draws, number)?;
    push_libraries(alloc, &mut list, draws, LIBRARIES)?;
    dependencies(alloc, list.as_str())
}

// The POM of a module, in a folder of its name.
fn put_pom(alloc: Global, project: &mut Project, name: &str, inside: &str) -> Mem<()> {
    let path = format!(in alloc; "{name}/pom.xml")?;
    put_module(alloc, project, path.as_str(), name, inside)
}

fn put_drawn_module(
    alloc: Global,
    project: &mut Project,
    draws: &mut Draws,
    number: u32,
) -> Mem<()> {
    let inside = module_inside(alloc, draws, number)?;
    let name = module_name(alloc, number)?;
    put_pom(alloc, project, name.as_str(), inside.as_str())?;
    put_sources(alloc, project, draws, name.as_str())
}

fn push_listed(alloc: Global, list: &mut String, number: u32) -> Mem<()> {
    let text = format!(in alloc; "<module>m{number}</module>")?;
    list.push_str(text.as_str())?;
    Ok(())
}

// The list of so many modules, from the first on or from the last on.
fn modules_list(alloc: Global, count: u32, turned: bool) -> Mem<String> {
    let mut list = String::new(alloc);
    for at in 0..count {
        let number = if turned { count - 1 - at } else { at };
        push_listed(alloc, &mut list, number)?;
    }
    Ok(list)
}

fn put_root(alloc: Global, project: &mut Project, count: u32, turned: bool) -> Mem<()> {
    let list = modules_list(alloc, count, turned)?;
    let list = list.as_str();
    let inside = format!(in alloc; "<packaging>pom</packaging><modules>{list}</modules>")?;
    put_module(alloc, project, "pom.xml", "root", inside.as_str())
}

fn put_libraries(alloc: Global, project: &mut Project, draws: &mut Draws) -> Mem<()> {
    for number in 0..LIBRARIES {
        put_drawn(alloc, project, draws, number)?;
    }
    Ok(())
}

fn put_modules(alloc: Global, project: &mut Project, draws: &mut Draws, count: u32) -> Mem<()> {
    for number in 0..count {
        put_drawn_module(alloc, project, draws, number)?;
    }
    Ok(())
}

/// The project of a number: a root and 1 to `most` modules, of which some need others and libraries, and of which the tests of some fail.
/// A library's POM is in one repository or in both, and its jar mostly beside it. Costs the files that it has. Project rule.
pub fn random_project(alloc: Global, seed: u32, most: u32) -> Mem<Project> {
    let mut draws = Draws::new(seed);
    let mut project = empty(alloc);
    let count = if most == 0 { 0 } else { 1 + draws.below(most) };
    put_root(alloc, &mut project, count, seed % 2 == 1)?;
    put_libraries(alloc, &mut project, &mut draws)?;
    put_modules(alloc, &mut project, &mut draws, count)?;
    Ok(project)
}
