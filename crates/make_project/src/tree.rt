// The files of the generated project.
ghost use Rattle.std.specs.Prelude.{◌≡◌, ◌≤◌, ◌++◌, ◌∷◌, [], true, flat_map, IfOk, OnOk};
ghost use Rattle.outside_mem.specs.Tree.{files_of, tree_files};
ghost use Rattle.make_project.specs.Poms.{numbers};
ghost use Rattle.make_project.specs.Projects.{module_files, number_file, pom_file, project_files, remote_files};

use crate::poms::{module_name, module_pom, root_pom};
use crate::repository::remote_files;
use goal_types::SourceFile;
use mvn_outside::Files;
use mvn_shared::{Bytes, List, Mem, Text};
use outside_mem::{MemFile, MemTree, NoFailures};
use std::alloc::Global;

/// A project, and the files of the remote repository that it needs.
#[derive(Drop)]
pub struct Project {
    pub tree: MemTree<NoFailures>,
    pub remote: List<MemFile>,
}

// A file in a module's folder.
fn push_file(
    alloc: Global,
    files: &mut List<SourceFile>,
    folder: &str,
    path: &str,
    bytes: Bytes,
) -> Mem<()>
    ensures { OnOk result (files.new
        ≡ files.old ++ (record { path = folder.now ++ path.now; bytes = bytes }) ∷ []) }
{
    let mut whole = Text::from_str(alloc, folder)?;
    whole.push_str(path)?;
    files.push(SourceFile { path: whole, bytes })
}

// A module's POM.
fn push_pom(alloc: Global, files: &mut List<SourceFile>, number: u32) -> Mem<()>
    ensures { OnOk result (files.new ≡ files.old ++ pom_file number ∷ []) }
{
    let folder = module_name(alloc, number)?;
    let pom = module_pom(alloc, number)?;
    push_file(alloc, files, folder.as_str(), "/pom.xml", pom)
}

// A module's one source, which holds its number.
fn push_source(alloc: Global, files: &mut List<SourceFile>, number: u32) -> Mem<()>
    ensures { OnOk result (files.new ≡ files.old ++ number_file number ∷ []) }
{
    let folder = module_name(alloc, number)?;
    let text = format!(in alloc; "{number}")?;
    let bytes = Bytes::of(text.into_bytes());
    push_file(alloc, files, folder.as_str(), "/src/main/java/A.txt", bytes)
}

// The files of a module.
#[tactic(auto, using(crate::proofs::Numbers::two_more))]
fn push_module(alloc: Global, files: &mut List<SourceFile>, number: u32) -> Mem<()>
    ensures { OnOk result (files.new ≡ files.old ++ module_files number) }
{
    push_pom(alloc, files, number)?;
    push_source(alloc, files, number)?;
    Ok(())
}

// The files of the modules of a project of so many POMs.
#[tactic(auto, using(crate::proofs::Numbers::numbers_more))]
fn push_modules(alloc: Global, files: &mut List<SourceFile>, poms: u32) -> Mem<()>
    requires { 1 ≤ poms }
    ensures { OnOk result (files.new ≡ files.old ++ flat_map module_files (numbers poms)) }
{
    for number in 1..poms {
        push_module(alloc, files, number)?;
    }
    Ok(())
}

// The files of a project of so many POMs.
fn project_files(alloc: Global, poms: u32) -> Mem<List<SourceFile>>
    ensures { IfOk result (λ files. files ≡ project_files poms) }
{
    let mut files = List::new(alloc);
    let root = root_pom(alloc, poms)?;
    push_file(alloc, &mut files, "", "pom.xml", root)?;
    if poms > 1 {
        push_modules(alloc, &mut files, poms)?;
    }
    Ok(files)
}

/// The project of so many POMs, which is never at fault, and the files of its remote repository: a root, and modules
/// each of which stands on the module of half its number and on a library. Costs its size. Project rule.
pub fn generated(alloc: Global, poms: u32) -> Mem<Project>
    ensures tree { IfOk result (λ project.
        tree_files project.tree ≡ files_of (project_files poms)) }
    ensures remote { IfOk result (λ project. project.remote ≡ remote_files) }
    ensures never { IfOk result (λ project.
        ⟦<MemTree<NoFailures> as Files>⟧.never_fails project.tree ≡ true) }
{
    let files = project_files(alloc, poms)?;
    let tree = MemTree::without_failures(alloc, files)?;
    let remote = remote_files(alloc)?;
    Ok(Project { tree, remote })
}
