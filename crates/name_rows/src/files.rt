// Files, coordinates and refusals.
ghost use Rattle.std.specs.Prelude.{◌≡◌};
ghost use Rattle.std.specs.List.{list_all};
ghost use Rattle.mvn_base.specs.FileName.{is_digest, is_hex_digit};

use mvn_base::{
    Gav, Key, Place, PomId, Refusal, Rule, entry_name, index_file, key_text, lock_name,
    sidecar_name, valid_group, valid_name, version_in,
};
use mvn_shared::{Mem, Shared, Text};
use row_fields::{file_name, gav, word};
use std::alloc::Global;

// Coordinates of a group, an artifact and a version.
fn shared_gav(alloc: Global, g: &Text, a: &Text, v: &Text) -> Mem<Shared<Gav>> {
    let gav = gav(alloc, g.as_str(), a.as_str(), v.as_str())?;
    Shared::new(alloc, gav)
}

// The name of a file in a repository.
fn file_text(alloc: Global, gav: &Gav, classifier: &Text, extension: &Text) -> Mem<String> {
    match file_name(alloc, gav, classifier, extension)? {
        Some(name) => Ok(format!(in alloc; "{name}")?),
        None => word(alloc, "not valid"),
    }
}

fn file(alloc: Global, g: &Text, a: &Text, v: &Text, c: &Text, extension: &Text) -> Mem<String> {
    let gav = shared_gav(alloc, g, a, v)?;
    file_text(alloc, &gav, c, extension)
}

// The name of the list of an artifact's versions.
fn index(alloc: Global, group: &Text, artifact: &Text) -> Mem<String> {
    if !valid_group(group.as_bytes()) || !valid_name(artifact.as_bytes()) {
        return word(alloc, "not valid");
    }
    let name = index_file(alloc, group, artifact)?;
    Ok(format!(in alloc; "{name}")?)
}

// The name of the file with the SHA-1 of a coordinate's file.
fn sidecar_text(alloc: Global, gav: &Gav, classifier: &Text, extension: &Text) -> Mem<String> {
    match file_name(alloc, gav, classifier, extension)? {
        Some(name) => {
            let sidecar = sidecar_name(alloc, &name)?;
            Ok(format!(in alloc; "{sidecar}")?)
        }
        None => word(alloc, "not valid"),
    }
}

fn sidecar(alloc: Global, g: &Text, a: &Text, v: &Text, c: &Text, extension: &Text) -> Mem<String> {
    let gav = shared_gav(alloc, g, a, v)?;
    sidecar_text(alloc, &gav, c, extension)
}

// Whether a byte is a digit of a digest.
fn is_hex_digit(b: u8) -> bool
    ensures { result ≡ is_hex_digit b }
{
    (b >= b'0' && b <= b'9') || (b >= b'a' && b <= b'f')
}

fn has_hex_digits(digest: &[u8]) -> bool
    ensures { result ≡ list_all is_hex_digit digest.now }
{
    digest.iter().all(|b| is_hex_digit(*b))
}

// Whether a text has the 64 digits of a SHA-256.
fn is_digest(digest: &[u8]) -> bool
    ensures { result ≡ is_digest digest.now }
{
    digest.len() == 64 && has_hex_digits(digest)
}

// The name of a cache's entry.
fn entry(alloc: Global, digest: &Text) -> Mem<String> {
    if !is_digest(digest.as_bytes()) {
        return word(alloc, "not valid");
    }
    let name = entry_name(alloc, digest)?;
    Ok(format!(in alloc; "{name}")?)
}

// The version in the name of a POM.
fn named_version(alloc: Global, group: &Text, artifact: &Text, path: &Text) -> Mem<String> {
    if !valid_group(group.as_bytes()) || !valid_name(artifact.as_bytes()) {
        return word(alloc, "not valid");
    }
    match version_in(alloc, group, artifact, path)? {
        Some(version) => word(alloc, version.as_str()),
        None => word(alloc, "none"),
    }
}

fn key(group: &Text, artifact: &Text, kind: &Text, classifier: &Text) -> Mem<Key> {
    let group = group.clone()?;
    let artifact = artifact.clone()?;
    let kind = kind.clone()?;
    let classifier = classifier.clone()?;
    Ok(Key {
        group,
        artifact,
        kind,
        classifier,
    })
}

fn spelled_key(alloc: Global, key: &Key) -> Mem<String> {
    word(alloc, key_text(alloc, key)?.as_str())
}

fn keyed(alloc: Global, g: &Text, a: &Text, kind: &Text, classifier: &Text) -> Mem<String> {
    let key = key(g, a, kind, classifier)?;
    spelled_key(alloc, &key)
}

fn lock(alloc: Global, g: &Text, a: &Text, v: &Text) -> Mem<String> {
    let gav = shared_gav(alloc, g, a, v)?;
    word(alloc, lock_name(alloc, &gav)?.as_str())
}

// One of the rules that the rows name.
fn rule(name: &Text) -> Rule {
    match name.as_str() {
        "LineageTooLong" => Rule::LineageTooLong,
        "ParentExpression" => Rule::ParentExpression,
        _ => Rule::TooLarge,
    }
}

fn spelled_refusal(alloc: Global, refusal: &Refusal) -> Mem<String> {
    Ok(format!(in alloc; "{refusal}")?)
}

fn refused(alloc: Global, pom: PomId, rule: Rule, place: Place) -> Mem<String> {
    let refusal = Refusal { pom, rule, place };
    spelled_refusal(alloc, &refusal)
}

// A refusal of a project's POM at a name.
fn at_name(alloc: Global, rule: Rule, path: &Text, name: &Text) -> Mem<String> {
    let path = path.clone()?;
    let name = name.clone()?;
    refused(alloc, PomId::Path(path), rule, Place::Name(name))
}

// A refusal of a repository's POM at a byte.
fn at_byte(alloc: Global, rule: Rule, g: &Text, a: &Text, v: &Text, byte: &Text) -> Mem<String> {
    let byte = byte.as_str().parse::<u64>().unwrap_or(0);
    let gav = gav(alloc, g.as_str(), a.as_str(), v.as_str())?;
    refused(alloc, PomId::Gav(gav), rule, Place::Byte(byte))
}

// What is told of a row of files and coordinates in a repository.
fn told_in_repository(alloc: Global, kind: &str, texts: &[Text]) -> Mem<String> {
    match (kind, texts) {
        ("file", [g, a, v, c, extension]) => file(alloc, g, a, v, c, extension),
        ("version-in", [group, artifact, path]) => named_version(alloc, group, artifact, path),
        _ => word(alloc, "no such row"),
    }
}

// What is told of a row of the project's own names of files.
fn told_of_own(alloc: Global, kind: &str, texts: &[Text]) -> Mem<String> {
    match (kind, texts) {
        ("index", [group, artifact]) => index(alloc, group, artifact),
        ("sidecar", [g, a, v, c, extension]) => sidecar(alloc, g, a, v, c, extension),
        ("entry", [digest]) => entry(alloc, digest),
        _ => word(alloc, "no such row"),
    }
}

// What is told of a row of keys and locks.
fn told_as_key(alloc: Global, kind: &str, texts: &[Text]) -> Mem<String> {
    match (kind, texts) {
        ("key", [g, a, kind, classifier]) => keyed(alloc, g, a, kind, classifier),
        ("lock", [g, a, v]) => lock(alloc, g, a, v),
        _ => word(alloc, "no such row"),
    }
}

// What is told of a row of refusals.
fn told_as_refusal(alloc: Global, kind: &str, texts: &[Text]) -> Mem<String> {
    match (kind, texts) {
        ("at-name", [name, path, place]) => at_name(alloc, rule(name), path, place),
        ("at-byte", [name, g, a, v, byte]) => at_byte(alloc, rule(name), g, a, v, byte),
        _ => word(alloc, "no such row"),
    }
}

/// What is told of a row of files, coordinates and refusals.
pub(crate) fn told(alloc: Global, kind: &str, texts: &[Text]) -> Mem<String> {
    match kind {
        "file" | "version-in" => told_in_repository(alloc, kind, texts),
        "index" | "sidecar" | "entry" => told_of_own(alloc, kind, texts),
        "key" | "lock" => told_as_key(alloc, kind, texts),
        _ => told_as_refusal(alloc, kind, texts),
    }
}
