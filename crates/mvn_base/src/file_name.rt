//! The names of a repository's files, made from coordinates alone. Maven's repository layout.

ghost use Rattle.std.specs.Prelude.{◌≡◌, ◌<◌, ◌==◌, nat_eq, ◌++◌, [], ◌∷◌, true, map, codes, IfOk, OnOk};
ghost use Rattle.std.specs.String.{string_bytes};
ghost use Rattle.mvn_base.specs.FileName.{artifact_folder, folder_byte, classifier_part, entry_name, file_name, index_file, IsValid, is_classifier, is_digest, pom_name, sidecar_name, step_before_last, version_in};
ghost use Rattle.std.specs.Cmp.Lexicographic.{pointwise};
ghost use Rattle.std.specs.List.{slice_split};
ghost use Rattle.mvn_base.specs.Names.{is_group, is_name, is_version};

use crate::gav::Gav;
use crate::names::valid_version;
use mvn_shared::{Mem, Text};
use std::alloc::{AllocError, Global};
use std::fmt;
use std::marker::Model;

/// The name of a file of a repository: a path of valid names, so that it leads nowhere else. It is made from
/// coordinates alone. Maven's repository layout.
#[derive(Clone, Drop, PartialEq, Eq)]
pub struct FileName {
    path: Text,
}

impl Model for FileName {
    ghost use Rattle.std.specs.Prelude.{List, ℕ};
    ghost use Rattle.std.specs.Coded.{coded_list, coded_ℕ};

    ghost Value = { List ℕ };

    ghost coded = { coded_list coded_ℕ };

    ghost view = { λ name. name.path };

    ghost inverse = { λ path. record { path = path } };
}

impl FileName {
    /// The path, with `/` between its steps.
    pub fn as_text(&self) -> &Text
        ensures { result.now ≡ self.now }
    {
        &self.path
    }
}

impl fmt::Display for FileName {
    ghost use Rattle.std.specs.Prelude.{Some};

    ghost output = { λ name. Some name };

    fn fmt<W: fmt::Write>(&self, f: &mut fmt::Formatter<W>) -> fmt::Result {
        let path = &self.path;
        write!(f, "{path}")
    }
}

// A byte of a group, as it stands in a folder's name.
fn folder_char(b: u8) -> char
    requires { b < 128 }
    ensures value { result ≡ folder_byte b }
    ensures ascii { result < 128 }
{
    if b == b'.' { '/' } else { char::from(b) }
}

// The folder of a group.
fn group_folder(alloc: Global, group: &[u8]) -> Mem<String>
    requires { is_group group.now ≡ true }
    ensures { IfOk result (λ folder. string_bytes folder ≡ map folder_byte group.now) }
{
    let mut folder = String::new(alloc);
    for b in group {
        folder.push(folder_char(*b))?;
    }
    Ok(folder)
}

/// The folder of an artifact's versions: the group with `/` for its dots, `/` and the artifact. Costs its length.
pub fn artifact_folder(alloc: Global, group: &Text, artifact: &Text) -> Mem<Text>
    requires { is_group group.now ≡ true }
    ensures { IfOk result (λ folder. folder ++ 47 ∷ [] ≡ artifact_folder group.now artifact.now) }
{
    let mut folder = group_folder(alloc, group.as_bytes())?;
    folder.push('/')?;
    folder.push_str(artifact.as_str())?;
    Ok(Text::of(folder))
}

// A hyphen and the classifier, where there is one.
fn push_classifier(path: &mut String, classifier: &str) -> Mem<()>
    ensures { OnOk result
        (string_bytes path.new ≡ string_bytes path.old ++ classifier_part classifier.now) }
{
    if !classifier.is_empty() {
        path.push('-')?;
        path.push_str(classifier)?;
    }
    Ok(())
}

/// The name of an artifact's file: `group/artifact/version/artifact-version[-classifier].extension`, with `/` for the
/// dots of the group. Costs its length.
#[tactic(auto, unfolding(crate::specs::FileName::file_name))]
pub fn file_of(alloc: Global, gav: &Gav, classifier: &Text, extension: &Text) -> Mem<FileName>
    requires names { IsValid gav.now }
    requires classifier { is_classifier classifier.now ≡ true }
    requires extension { is_name extension.now ≡ true }
    ensures { IfOk result (λ name. name ≡ file_name gav.now classifier.now extension.now) }
{
    let artifact = gav.artifact.as_str();
    let version = gav.version.as_str();
    let mut path = group_folder(alloc, gav.group.as_bytes())?;
    path.push('/')?;
    path.push_str(artifact)?;
    path.push('/')?;
    path.push_str(version)?;
    path.push('/')?;
    path.push_str(artifact)?;
    path.push('-')?;
    path.push_str(version)?;
    push_classifier(&mut path, classifier.as_str())?;
    path.push('.')?;
    path.push_str(extension.as_str())?;
    let path = Text::of(path);
    Ok(FileName { path })
}

/// The name of the file that lists which versions of an artifact are installed: `group/artifact/versions.index`, with `/` for
/// the dots of the group. No artifact has it, since the last step of an artifact's name has a `-`. Costs its length. Project
/// rule.
pub fn index_file(alloc: Global, group: &Text, artifact: &Text) -> Mem<FileName>
    requires group { is_group group.now ≡ true }
    requires artifact { is_name artifact.now ≡ true }
    ensures { IfOk result (λ name. name ≡ index_file group.now artifact.now) }
{
    let mut path = group_folder(alloc, group.as_bytes())?;
    path.push('/')?;
    path.push_str(artifact.as_str())?;
    path.push_str("/versions.index")?;
    let path = Text::of(path);
    Ok(FileName { path })
}

/// The name of the file beside another that holds its SHA-1: that name and `.sha1`. Costs its length. Maven's repository
/// layout.
pub fn sidecar_name(alloc: Global, name: &FileName) -> Mem<FileName>
    ensures { IfOk result (λ sidecar. sidecar ≡ sidecar_name name.now) }
{
    let mut path = String::new(alloc);
    path.push_str(name.path.as_str())?;
    path.push_str(".sha1")?;
    let path = Text::of(path);
    Ok(FileName { path })
}

/// The name of a cache's entry: `cache/` and the 64 digits of its key's SHA-256. Costs its length. Project rule.
pub fn entry_name(alloc: Global, digest: &Text) -> Mem<FileName>
    requires { is_digest digest.now ≡ true }
    ensures { IfOk result (λ name. name ≡ entry_name digest.now) }
{
    let mut path = String::new(alloc);
    path.push_str("cache/")?;
    path.push_str(digest.as_str())?;
    let path = Text::of(path);
    Ok(FileName { path })
}

// The steps of a path.
fn steps<'a>(alloc: Global, path: &'a str) -> Result<Vec<&'a str>, AllocError>
    ensures { IfOk result (λ steps.
        map (λ x. x.now) steps.items ≡ slice_split (λ b. b == 47) path.now) }
{
    path.split('/').collect(alloc)
}

// The step before the last, empty where there is none.
fn step_before_last<'a>(steps: &[&'a str]) -> &'a str
    ensures { result.now ≡ step_before_last (map (λ x. x.now) steps.now) }
{
    match steps {
        [.., step, _] => step,
        _ => "",
    }
}

// The step before the last of a path, as a text.
fn folder_step(alloc: Global, path: &str) -> Mem<Text>
    ensures { IfOk result (λ step.
        step ≡ step_before_last (slice_split (λ b. b == 47) path.now)) }
{
    let steps = steps(alloc, path)?;
    Text::from_str(alloc, step_before_last(&steps))
}

// The extension of a POM.
#[tactic(auto, unfolding(crate::specs::Names::is_name, crate::specs::Names::is_name_byte))]
fn pom_extension(alloc: Global) -> Mem<Text>
    ensures word { IfOk result (λ text. text ≡ codes "pom") }
    ensures name { IfOk result (λ text. is_name text ≡ true) }
{
    Text::from_str(alloc, "pom")
}

// The name of the POM of a coordinate.
fn pom_of(alloc: Global, gav: &Gav) -> Mem<FileName>
    requires { IsValid gav.now }
    ensures { IfOk result (λ name. name ≡ file_name gav.now [] (codes "pom")) }
{
    let none = Text::from_str(alloc, "")?;
    let pom = pom_extension(alloc)?;
    file_of(alloc, gav, &none, &pom)
}

// A coordinate of these parts.
fn gav_of(group: &Text, artifact: &Text, version: &Text) -> Mem<Gav>
    ensures group { IfOk result (λ gav. gav.group ≡ group.now) }
    ensures artifact { IfOk result (λ gav. gav.artifact ≡ artifact.now) }
    ensures version { IfOk result (λ gav. gav.version ≡ version.now) }
{
    let group = group.clone()?;
    let artifact = artifact.clone()?;
    let version = version.clone()?;
    Ok(Gav {
        group,
        artifact,
        version,
    })
}

// Whether the POM of these parts has this name.
fn is_pom_name(
    alloc: Global,
    group: &Text,
    artifact: &Text,
    version: &Text,
    name: &Text,
) -> Mem<bool>
    requires group { is_group group.now ≡ true }
    requires artifact { is_name artifact.now ≡ true }
    requires version { is_version version.now ≡ true }
    ensures { IfOk result (λ it.
        it ≡ pointwise nat_eq (pom_name group.now artifact.now version.now) name.now) }
{
    let gav = gav_of(group, artifact, version)?;
    let pom = pom_of(alloc, &gav)?;
    Ok(pom.as_text() == name)
}

/// The version of an artifact whose POM has this name, where it is a valid one. Costs the name's length.
#[tactic(auto, unfolding(crate::specs::FileName::version_in))]
pub fn version_in(alloc: Global, group: &Text, artifact: &Text, name: &Text) -> Mem<Option<Text>>
    requires group { is_group group.now ≡ true }
    requires artifact { is_name artifact.now ≡ true }
    ensures { IfOk result (λ found. found ≡ version_in group.now artifact.now name.now) }
{
    let version = folder_step(alloc, name.as_str())?;
    if !valid_version(version.as_bytes()) {
        return Ok(None);
    }
    if is_pom_name(alloc, group, artifact, &version, name)? {
        Ok(Some(version))
    } else {
        Ok(None)
    }
}
