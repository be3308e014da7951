// Versions and what requirements admit.
use mvn_shared::{Mem, Text};
use row_fields::word;
use std::alloc::Global;
use std::cmp::Ordering;
use versions::{Requirement, RequirementError, Version};

// How two versions compare, asked both ways.
fn mark(a: &Version, b: &Version) -> &'static str {
    match (a.order(b), b.order(a)) {
        (Ordering::Less, Ordering::Greater) => "<",
        (Ordering::Equal, Ordering::Equal) => "=",
        (Ordering::Greater, Ordering::Less) => ">",
        _ => "?",
    }
}

fn push_versions(alloc: Global, versions: &mut Vec<Version>, texts: &[Text]) -> Mem<()> {
    for text in texts {
        versions.push(Version::parse(alloc, text)?)?;
    }
    Ok(())
}

fn versions(alloc: Global, texts: &[Text]) -> Mem<Vec<Version>> {
    let mut versions = Vec::new(alloc);
    push_versions(alloc, &mut versions, texts)?;
    Ok(versions)
}

// The versions, with how each compares with the next.
fn listed(alloc: Global, versions: &[Version]) -> Mem<String> {
    let mut shown = String::new(alloc);
    for at in 0..versions.len() {
        if at > 0 {
            shown.push_str(" ")?;
            shown.push_str(mark(&versions[at - 1], &versions[at]))?;
            shown.push_str(" ")?;
        }
        shown.push_str(versions[at].as_text().as_str())?;
    }
    Ok(shown)
}

fn listed_in_order(alloc: Global, versions: &mut Vec<Version>) -> Mem<String> {
    versions.sort()?;
    listed(alloc, versions.as_slice())
}

// Versions sorted, those that are equal as they came, with how each compares with the next.
fn sorted(alloc: Global, texts: &[Text]) -> Mem<String> {
    let mut versions = versions(alloc, texts)?;
    listed_in_order(alloc, &mut versions)
}

// How a version compares with another.
fn compared_with(alloc: Global, a: &Version, b: &Text) -> Mem<String> {
    let b = Version::parse(alloc, b)?;
    word(alloc, mark(a, &b))
}

// How two versions compare.
fn compared(alloc: Global, a: &Text, b: &Text) -> Mem<String> {
    let a = Version::parse(alloc, a)?;
    compared_with(alloc, &a, b)
}

// Five bytes among which versions split in each way.
fn letter(number: u32) -> &'static str {
    match number % 5 {
        0 => "0",
        1 => "1",
        2 => "a",
        3 => ".",
        _ => "-",
    }
}

fn push_letters(text: &mut String, number: u32) -> Mem<()> {
    text.push_str(letter(number / 125))?;
    text.push_str(letter(number / 25))?;
    text.push_str(letter(number / 5))?;
    text.push_str(letter(number))?;
    Ok(())
}

// The text of a number below 625: four of these bytes.
fn short_text(alloc: Global, number: u32) -> Mem<Text> {
    let mut text = String::new(alloc);
    push_letters(&mut text, number)?;
    Ok(Text::of(text))
}

fn push_mark(alloc: Global, shown: &mut String, version: &Version, other: &Text) -> Mem<()> {
    let other = Version::parse(alloc, other)?;
    Ok(shown.push_str(mark(version, &other))?)
}

fn push_marks(alloc: Global, shown: &mut String, version: &Version) -> Mem<()> {
    for number in 0..625u32 {
        let other = short_text(alloc, number)?;
        push_mark(alloc, shown, version, &other)?;
    }
    Ok(())
}

fn marks_among_short(alloc: Global, version: &Version) -> Mem<String> {
    let mut shown = String::new(alloc);
    push_marks(alloc, &mut shown, version)?;
    Ok(shown)
}

// How a version compares with each of all texts of four bytes of `01a.-`.
fn among_short(alloc: Global, text: &Text) -> Mem<String> {
    let version = Version::parse(alloc, text)?;
    marks_among_short(alloc, &version)
}

// Why a text is no requirement.
fn spelled(alloc: Global, error: &RequirementError) -> Mem<String> {
    Ok(format!(in alloc; "{error}")?)
}

fn marks(alloc: Global, requirement: &Requirement, versions: &[Version]) -> Mem<String> {
    let mut shown = String::new(alloc);
    for version in versions {
        shown.push_str(word_for(requirement.admits(version), "+", "."))?;
    }
    Ok(shown)
}

fn word_for(holds: bool, yes: &'static str, no: &'static str) -> &'static str {
    if holds { yes } else { no }
}

fn spelled_marks(alloc: Global, requirement: &Requirement, versions: &[Version]) -> Mem<String> {
    let marks = marks(alloc, requirement, versions)?;
    let kind = word_for(requirement.is_hard(), "hard", "soft");
    Ok(format!(in alloc; "{kind} {marks}")?)
}

fn marked(alloc: Global, requirement: &Requirement, texts: &[Text]) -> Mem<String> {
    let versions = versions(alloc, texts)?;
    spelled_marks(alloc, requirement, versions.as_slice())
}

// Whether a requirement is hard, and which of the versions it admits; or from where on it is none.
fn admitted(alloc: Global, requirement: &Text, texts: &[Text]) -> Mem<String> {
    match &Requirement::parse(alloc, requirement) {
        Ok(requirement) => marked(alloc, requirement, texts),
        Err(error) => spelled(alloc, error),
    }
}

fn highest_of(alloc: Global, requirement: &Requirement, versions: &[Version]) -> Mem<String> {
    if versions.len() > 1000 {
        return word(alloc, "too many");
    }
    match requirement.highest(versions) {
        Some(place) => Ok(format!(in alloc; "{place}")?),
        None => word(alloc, "none"),
    }
}

fn highest_among(alloc: Global, requirement: &Text, versions: &[Version]) -> Mem<String> {
    match &Requirement::parse(alloc, requirement) {
        Ok(requirement) => highest_of(alloc, requirement, versions),
        Err(error) => spelled(alloc, error),
    }
}

// The place of the highest version that a requirement admits.
fn highest(alloc: Global, requirement: &Text, texts: &[Text]) -> Mem<String> {
    let versions = versions(alloc, texts)?;
    highest_among(alloc, requirement, versions.as_slice())
}

/// What is told of a row of versions.
pub(crate) fn told(alloc: Global, kind: &str, texts: &[Text]) -> Mem<String> {
    match (kind, texts) {
        ("sorted", _) => sorted(alloc, texts),
        ("compare", [a, b]) => compared(alloc, a, b),
        ("among-short", [text]) => among_short(alloc, text),
        ("admits", [requirement, texts @ ..]) => admitted(alloc, requirement, texts),
        ("highest", [requirement, texts @ ..]) => highest(alloc, requirement, texts),
        _ => word(alloc, "no such row"),
    }
}
