// How numbers and faults are told.
use mvn_base::Refusal;
use mvn_shared::Mem;
use pom_source::BuildFault;
use std::alloc::Global;

/// A word, and a number after it.
pub fn push_number(alloc: Global, text: &mut String, word: &str, number: u64) -> Mem<()> {
    let shown = format!(in alloc; "{word}{number}")?;
    text.push_str(shown.as_str())?;
    Ok(())
}

/// A word, with a space before it where it isn't the first.
pub fn push_word(text: &mut String, word: &str) -> Mem<()> {
    if !text.is_empty() {
        text.push_str(" ")?;
    }
    text.push_str(word)?;
    Ok(())
}

/// The place of a word that means no module.
pub fn push_unknown(alloc: Global, text: &mut String, place: usize) -> Mem<()> {
    push_number(alloc, text, "word ", place as u64)?;
    text.push_str(" UnknownModule")?;
    Ok(())
}

/// A refusal.
pub fn push_refusal(alloc: Global, text: &mut String, refusal: &Refusal) -> Mem<()> {
    let shown = format!(in alloc; "{refusal}")?;
    text.push_str(shown.as_str())?;
    Ok(())
}

/// That memory was missing.
pub fn push_no_memory(text: &mut String) -> Mem<()> {
    text.push_str("out of memory")?;
    Ok(())
}

/// Why there are no POMs, or no model.
pub fn push_fault(alloc: Global, text: &mut String, fault: &BuildFault) -> Mem<()> {
    let told = match fault {
        BuildFault::Refused(refusal) => return push_refusal(alloc, text, refusal),
        BuildFault::Absent => "no such POM",
        BuildFault::Source => "the source failed",
        BuildFault::Memory => return push_no_memory(text),
    };
    text.push_str(told)?;
    Ok(())
}
