// The fields of a row, and the words of a field.
use mvn_base::Pair;
use mvn_shared::{List, Mem, Text};
use std::alloc::Global;

/// The fields of a row, with a bar between two of them.
pub fn split_row<'a>(alloc: Global, row: &'a str) -> Mem<Vec<&'a str>> {
    let mut fields = Vec::new(alloc);
    for field in row.split('|') {
        fields.push(field)?;
    }
    Ok(fields)
}

/// A field, empty where there is none.
pub fn field<'a>(fields: &[&'a str], at: usize) -> &'a str {
    match fields.get(at) {
        Some(field) => *field,
        None => "",
    }
}

fn put_words(alloc: Global, list: &mut List<Text>, field: &str) -> Mem<()> {
    for word in field.split_whitespace() {
        list.push(Text::from_str(alloc, word)?)?;
    }
    Ok(())
}

/// The words of a field.
pub fn words(alloc: Global, field: &str) -> Mem<List<Text>> {
    let mut list = List::new(alloc);
    put_words(alloc, &mut list, field)?;
    Ok(list)
}

fn pair(alloc: Global, name: &str, value: &str) -> Mem<Pair> {
    let name = Text::from_str(alloc, name)?;
    let value = Text::from_str(alloc, value)?;
    Ok(Pair { name, value })
}

// A word as a name and its value.
fn pair_of(alloc: Global, word: &str) -> Mem<Pair> {
    match word.split_once('=') {
        Some((name, value)) => pair(alloc, name, value),
        None => pair(alloc, word, "true"),
    }
}

/// Adds the words of a field as names and their values, which are `true` where none is said.
pub(crate) fn put_pairs(alloc: Global, list: &mut List<Pair>, field: &str) -> Mem<()> {
    for word in field.split_whitespace() {
        list.push(pair_of(alloc, word)?)?;
    }
    Ok(())
}

/// The words of a field as names and their values, which are `true` where none is said.
pub fn pairs(alloc: Global, field: &str) -> Mem<List<Pair>> {
    let mut list = List::new(alloc);
    put_pairs(alloc, &mut list, field)?;
    Ok(list)
}
