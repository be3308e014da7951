// Numbers and edges as they are spelled in a row.
use mvn_shared::Mem;
use std::alloc::Global;

/// The first section of a row and the others, with a slash between two of them; each is empty where there is none.
pub(crate) fn split_section(row: &str) -> (&str, &str) {
    let (section, others) = row.split_once('/').unwrap_or((row, ""));
    (section.trim(), others)
}

/// A number, or 0.
pub(crate) fn number(text: &str) -> u32 {
    text.parse::<u32>().unwrap_or(0)
}

/// The numbers of a section.
pub(crate) fn numbers(alloc: Global, section: &str) -> Mem<Vec<u32>> {
    let mut numbers = Vec::new(alloc);
    for word in section.split_whitespace() {
        numbers.push(number(word))?;
    }
    Ok(numbers)
}

/// The edges of a section, each a module and its upstream with `-` between.
pub(crate) fn edges(alloc: Global, section: &str) -> Mem<Vec<(u32, u32)>> {
    let mut edges = Vec::new(alloc);
    for word in section.split_whitespace() {
        let (module, upstream) = word.split_once('-').unwrap_or(("", ""));
        edges.push((number(module), number(upstream)))?;
    }
    Ok(edges)
}

/// Whether a section has a word.
pub(crate) fn has_word(section: &str, wanted: &str) -> bool {
    for word in section.split_whitespace() {
        if word == wanted {
            return true;
        }
    }
    false
}
