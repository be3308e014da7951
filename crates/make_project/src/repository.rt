// The remote repository of the generated project. Maven's repository layout, for the names of its files.
ghost use Rattle.std.specs.Prelude.{◌≡◌, ◌<◌, ◌++◌, ◌∷◌, [], true, codes, flat_map, IfOk, OnOk};
ghost use Rattle.mvn_base.specs.FileName.{file_name, is_classifier, IsValid};
ghost use Rattle.mvn_base.specs.Names.{is_name};
ghost use Rattle.make_project.specs.Poms.{library};
ghost use Rattle.make_project.specs.Projects.{artifact_file, artifact_files, below, external, library_files, remote_files};

use crate::poms::{base_pom, library, library_pom};
use mvn_base::{FileName, Gav, file_of};
use mvn_shared::{Bytes, List, Mem, Text};
use outside_mem::MemFile;
use std::alloc::Global;

// The coordinate of a library.
fn external(alloc: Global, artifact: &str) -> Mem<Gav>
    ensures { IfOk result (λ gav. gav ≡ external artifact.now) }
{
    let group = Text::from_str(alloc, "ext")?;
    let artifact = Text::from_str(alloc, artifact)?;
    let version = Text::from_str(alloc, "1.0")?;
    Ok(Gav {
        group,
        artifact,
        version,
    })
}

// The name of a file of coordinates.
fn file_named(alloc: Global, gav: &Gav, extension: &str) -> Mem<FileName>
    requires valid { IsValid gav.now }
    requires extension { is_name extension.now ≡ true }
    ensures { IfOk result (λ name. name ≡ file_name gav.now [] extension.now) }
{
    let none = Text::from_str(alloc, "")?;
    let extension = Text::from_str(alloc, extension)?;
    file_of(alloc, gav, &none, &extension)
}

// The name of a library's file.
#[tactic(auto, using(crate::proofs::Names::valid_external))]
fn name_of(alloc: Global, artifact: &str, extension: &str) -> Mem<FileName>
    requires artifact { is_name artifact.now ≡ true }
    requires extension { is_name extension.now ≡ true }
    ensures { IfOk result (λ name. name ≡ file_name (external artifact.now) [] extension.now) }
{
    let gav = external(alloc, artifact)?;
    file_named(alloc, &gav, extension)
}

// A file of a library.
fn push_file(
    alloc: Global,
    files: &mut List<MemFile>,
    artifact: &str,
    extension: &str,
    bytes: Bytes,
) -> Mem<()>
    requires artifact { is_name artifact.now ≡ true }
    requires extension { is_name extension.now ≡ true }
    ensures { OnOk result (files.new
        ≡ files.old ++ artifact_file artifact.now extension.now bytes ∷ []) }
{
    let name = name_of(alloc, artifact, extension)?;
    files.push(MemFile { name, bytes })
}

// The POM and the jar of a library.
#[tactic(auto, using(crate::proofs::Names::pom_is_name, crate::proofs::Names::jar_is_name))]
fn push_artifact(alloc: Global, files: &mut List<MemFile>, artifact: &str, pom: Bytes) -> Mem<()>
    requires artifact { is_name artifact.now ≡ true }
    ensures { OnOk result (files.new ≡ files.old ++ artifact_files artifact.now pom) }
{
    push_file(alloc, files, artifact, "pom", pom)?;
    let jar = Bytes::from_slice(alloc, b"J")?;
    push_file(alloc, files, artifact, "jar", jar)
}

// The files of a library that stands on the base.
#[tactic(auto, using(crate::proofs::Names::library_is_name))]
fn push_library(alloc: Global, files: &mut List<MemFile>, number: u32) -> Mem<()>
    requires { number < 10 }
    ensures { OnOk result (files.new ≡ files.old ++ library_files number) }
{
    let artifact = library(alloc, number)?;
    let pom = library_pom(alloc, artifact.as_str())?;
    push_artifact(alloc, files, artifact.as_str(), pom)
}

/// The files of the remote repository: ten libraries, and the base on which each of them stands. Constant cost.
#[tactic(auto, using(crate::proofs::Numbers::below_more, crate::proofs::Names::base_is_name))]
pub(crate) fn remote_files(alloc: Global) -> Mem<List<MemFile>>
    ensures { IfOk result (λ files. files ≡ remote_files) }
{
    let mut files = List::new(alloc);
    for number in 0..10u32 {
        push_library(alloc, &mut files, number)?;
    }
    let pom = base_pom(alloc)?;
    push_artifact(alloc, &mut files, "base", pom)?;
    Ok(files)
}
