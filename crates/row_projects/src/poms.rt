// The texts of POMs.
use mvn_shared::{Bytes, Mem};
use row_fields::unescaped;
use std::alloc::Global;

/// A group, an artifact and a version.
pub(crate) type Coordinates<'a> = (&'a str, &'a str, &'a str);

/// A module `m` with this number, as a POM lists it.
pub(crate) fn push_listed(alloc: Global, text: &mut String, number: u32) -> Mem<()> {
    let listed = format!(in alloc; "<module>m{number}</module>")?;
    text.push_str(listed.as_str())?;
    Ok(())
}

// An element of this name that has a text alone.
fn push_element(pom: &mut Bytes, name: &str, text: &str) -> Mem<()> {
    pom.extend_from_slice("<".as_bytes())?;
    pom.extend_from_slice(name.as_bytes())?;
    pom.extend_from_slice(">".as_bytes())?;
    pom.extend_from_slice(text.as_bytes())?;
    pom.extend_from_slice("</".as_bytes())?;
    pom.extend_from_slice(name.as_bytes())?;
    pom.extend_from_slice(">".as_bytes())
}

// A POM of these coordinates, with this in it after them.
fn push_pom(pom: &mut Bytes, named: Coordinates, inside: &[u8]) -> Mem<()> {
    pom.extend_from_slice("<project><modelVersion>4.0.0</modelVersion>".as_bytes())?;
    push_element(pom, "groupId", named.0)?;
    push_element(pom, "artifactId", named.1)?;
    push_element(pom, "version", named.2)?;
    pom.extend_from_slice(inside)?;
    pom.extend_from_slice("</project>".as_bytes())
}

// The text of a POM of these coordinates, with this in it after them.
fn pom_with(alloc: Global, named: Coordinates, inside: &[u8]) -> Mem<Bytes> {
    let mut pom = Bytes::of(Vec::new(alloc));
    push_pom(&mut pom, named, inside)?;
    Ok(pom)
}

/// A POM of these coordinates, with a field in it after them.
pub(crate) fn pom_of(alloc: Global, named: Coordinates, field: &str) -> Mem<Bytes> {
    let inside = unescaped(alloc, field)?;
    pom_with(alloc, named, inside.as_slice())
}
