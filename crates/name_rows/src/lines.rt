// Command lines.
use cli_words::{CommandLine, Word, WordError, options};
use mvn_base::Pair;
use mvn_shared::{Bytes, Mem, Text};
use row_fields::word;
use std::alloc::Global;

// Texts after a label, each with a comma.
fn push_texts(shown: &mut String, label: &str, texts: &[Text]) -> Mem<()> {
    if !texts.is_empty() {
        shown.push_str(label)?;
    }
    for text in texts {
        shown.push_str(text.as_str())?;
        shown.push_str(",")?;
    }
    Ok(())
}

fn push_pairs(shown: &mut String, pairs: &[Pair]) -> Mem<()> {
    for pair in pairs {
        shown.push_str(" D:")?;
        shown.push_str(pair.name.as_str())?;
        shown.push_str("=")?;
        shown.push_str(pair.value.as_str())?;
    }
    Ok(())
}

fn push_word(alloc: Global, shown: &mut String, label: &str, word: &Word) -> Mem<()> {
    let text = &word.text;
    let place = word.place;
    shown.push_str(format!(in alloc; " {label}:{text}@{place}")?.as_str())?;
    Ok(())
}

fn push_words(alloc: Global, shown: &mut String, label: &str, words: &[Word]) -> Mem<()> {
    for word in words {
        push_word(alloc, shown, label, word)?;
    }
    Ok(())
}

fn push_flag(shown: &mut String, flag: bool, label: &str) -> Mem<()> {
    if flag {
        shown.push_str(label)?;
    }
    Ok(())
}

fn push_generated(alloc: Global, shown: &mut String, generated: Option<u32>) -> Mem<()> {
    if let Some(poms) = generated {
        shown.push_str(format!(in alloc; " generated:{poms}")?.as_str())?;
    }
    Ok(())
}

fn push_workers(alloc: Global, shown: &mut String, workers: u32) -> Mem<()> {
    if workers != 1 {
        shown.push_str(format!(in alloc; " T{workers}")?.as_str())?;
    }
    Ok(())
}

// The phase, and how many workers where there are more than one.
fn push_head(alloc: Global, shown: &mut String, line: &CommandLine) -> Mem<()> {
    shown.push_str(line.phase.name())?;
    push_workers(alloc, shown, line.workers)
}

// Profiles, properties and projects, and where to begin.
fn push_lists(alloc: Global, shown: &mut String, line: &CommandLine) -> Mem<()> {
    push_texts(shown, " on:", line.choice.on.as_slice())?;
    push_texts(shown, " off:", line.choice.off.as_slice())?;
    push_pairs(shown, line.defines.as_slice())?;
    push_words(alloc, shown, "pl", line.projects.as_slice())?;
    match &line.from {
        Some(word) => push_word(alloc, shown, "rf", word),
        None => Ok(()),
    }
}

fn push_flags(alloc: Global, shown: &mut String, line: &CommandLine) -> Mem<()> {
    push_flag(shown, line.also_make, " am")?;
    push_flag(shown, line.also_make_dependents, " amd")?;
    push_flag(shown, line.full, " full")?;
    push_generated(alloc, shown, line.generated)
}

fn push_line(alloc: Global, shown: &mut String, line: &CommandLine) -> Mem<()> {
    push_head(alloc, shown, line)?;
    push_lists(alloc, shown, line)?;
    push_flags(alloc, shown, line)
}

// What a command line asks for.
fn shown(alloc: Global, line: &CommandLine) -> Mem<String> {
    let mut shown = String::new(alloc);
    push_line(alloc, &mut shown, line)?;
    Ok(shown)
}

// What a command line asks for, or its first fault.
fn told_of_line(alloc: Global, line: &Result<CommandLine, WordError>) -> Mem<String> {
    match line {
        Ok(line) => shown(alloc, line),
        Err(error) => Ok(format!(in alloc; "{error}")?),
    }
}

// What the words ask for, or the first fault.
fn asked(alloc: Global, words: &[Bytes], hands: u32) -> Mem<String> {
    if words.len() > 1000 || hands == 0 || hands > 16 {
        return word(alloc, "too many");
    }
    told_of_line(alloc, &options(alloc, words, hands))
}

// A number from its digits.
fn number(digits: &[u8]) -> u32 {
    let mut number = 0u32;
    for b in digits {
        number = number
            .wrapping_mul(10)
            .wrapping_add(b.wrapping_sub(b'0') as u32);
    }
    number
}

/// What a row of a number of hands and words asks for, or the first fault.
pub(crate) fn told(alloc: Global, fields: &[Bytes]) -> Mem<String> {
    match fields {
        [hands, words @ ..] => asked(alloc, words, number(hands.as_slice())),
        [] => word(alloc, "no such row"),
    }
}
