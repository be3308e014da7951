// The POMs of a row.
use model_types::RawModel;
use mvn_base::{ModelError, Place, PomId, Refusal, Rule};
use mvn_shared::{Bytes, Mem, Shared, Text};
use pom_model::read_model;
use pom_text::{PomText, TextFault, read_text};
use row_fields::unescaped;
use std::alloc::Global;

const PROJECT: &str = "<project><modelVersion>4.0.0</modelVersion>";

const COORDINATES: &str = "<groupId>g</groupId><artifactId>a</artifactId><version>1</version>";

/// The POM at a path of the project.
pub fn at_path(alloc: Global, path: &str) -> Mem<PomId> {
    let path = Text::from_str(alloc, path)?;
    Ok(PomId::Path(path))
}

// The model of a POM's elements.
fn modelled(alloc: Global, text: &PomText, pom: &PomId) -> Result<Shared<RawModel>, ModelError> {
    let model = read_model(alloc, text, pom)?;
    Ok(Shared::new(alloc, model)?)
}

// The refusal of a POM text at a byte.
fn refused(pom: &PomId, rule: Rule, place: u64) -> ModelError {
    let place = Place::Byte(place);
    match pom.clone() {
        Ok(pom) => ModelError::Refused(Refusal { pom, rule, place }),
        Err(_) => ModelError::Memory,
    }
}

// The model of a POM text.
fn read(alloc: Global, pom: &PomId, text: &[u8]) -> Result<Shared<RawModel>, ModelError> {
    match read_text(alloc, text) {
        Ok(text) => modelled(alloc, &text, pom),
        Err(TextFault::Refused { rule, place }) => Err(refused(pom, rule, place)),
        Err(TextFault::Memory) => Err(ModelError::Memory),
    }
}

// The model of the text of `pom.xml`.
fn read_pom(alloc: Global, text: &[u8]) -> Result<Shared<RawModel>, ModelError> {
    let pom = at_path(alloc, "pom.xml")?;
    read(alloc, &pom, text)
}

fn push_project(text: &mut Bytes, front: &str, inside: &[u8]) -> Mem<()> {
    text.extend_from_slice(PROJECT.as_bytes())?;
    text.extend_from_slice(front.as_bytes())?;
    text.extend_from_slice(inside)?;
    text.extend_from_slice("</project>".as_bytes())
}

// A project with this in it, after what is in front.
fn within(alloc: Global, front: &str, inside: &str) -> Mem<Bytes> {
    let inside = unescaped(alloc, inside)?;
    let mut text = Bytes::of(Vec::new(alloc));
    push_project(&mut text, front, inside.as_slice())?;
    Ok(text)
}

/// The model of a whole POM text.
pub fn whole(alloc: Global, field: &str) -> Result<Shared<RawModel>, ModelError> {
    let text = unescaped(alloc, field)?;
    read_pom(alloc, text.as_slice())
}

/// The model of a project with this in it, after its `modelVersion`.
pub fn project(alloc: Global, inside: &str) -> Result<Shared<RawModel>, ModelError> {
    let text = within(alloc, "", inside)?;
    read_pom(alloc, text.as_slice())
}

/// The same after its coordinates g:a:1, of the POM of this name.
pub fn named(alloc: Global, pom: &PomId, inside: &str) -> Result<Shared<RawModel>, ModelError> {
    let text = within(alloc, COORDINATES, inside)?;
    read(alloc, pom, text.as_slice())
}

/// The same of the POM `pom.xml`.
pub fn behind(alloc: Global, inside: &str) -> Result<Shared<RawModel>, ModelError> {
    let pom = at_path(alloc, "pom.xml")?;
    named(alloc, &pom, inside)
}
