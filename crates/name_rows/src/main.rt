//! The program `name_rows` answers rows about names, files and the words of a command line.
//!
//! A line of standard input is a word, which says what is asked for, and fields with a space between two of them, spelled as
//! `row_fields` says; the answer is printed as one line. In it all bytes but the printed ones of ASCII are spelled `\xNN`. A line that
//! begins with `#` is printed as it stands.
//!
//! - `words HANDS WORD ..`: what a command line asks for
//! - `name TEXT`, `version TEXT`: whether it is a valid one; `phase WORD`; `type TYPE`; `setting NAME CHILD ..`: a copy of it
//! - `file GROUP ARTIFACT VERSION CLASSIFIER EXTENSION`, `version-in GROUP ARTIFACT PATH`, `index GROUP ARTIFACT`, `sidecar` with the
//!   fields of `file`, `entry DIGEST`, `key GROUP ARTIFACT TYPE CLASSIFIER`,
//!   `lock GROUP ARTIFACT VERSION`, and the refusals `at-name RULE PATH NAME` and `at-byte RULE GROUP ARTIFACT VERSION BYTE`
#![tactic(auto)]

mod files;
mod lines;
mod terms;

use mvn_shared::{Mem, Text};
use row_fields::{escaped, fields, texts};
use std::alloc::Global;

// What is told of a row whose fields are texts.
fn told_of_texts(alloc: Global, kind: &str, texts: &[Text]) -> Mem<String> {
    match kind {
        "name" | "version" | "phase" | "type" | "setting" => terms::told(alloc, kind, texts),
        _ => files::told(alloc, kind, texts),
    }
}

fn answer_to_texts(alloc: Global, kind: &str, rest: &str) -> anyhow::Result<String> {
    let texts = texts(alloc, rest)?;
    Ok(told_of_texts(alloc, kind, texts.as_slice())?)
}

fn answer_to_words(alloc: Global, rest: &str) -> Mem<String> {
    let fields = fields(alloc, rest)?;
    lines::told(alloc, fields.as_slice())
}

// What is told of a row, as it is.
fn answer(alloc: Global, kind: &str, rest: &str) -> anyhow::Result<String> {
    match kind {
        "words" => Ok(answer_to_words(alloc, rest)?),
        _ => answer_to_texts(alloc, kind, rest),
    }
}

// What is told of a row.
fn told(alloc: Global, kind: &str, rest: &str) -> anyhow::Result<String> {
    let answer = answer(alloc, kind, rest)?;
    Ok(escaped(alloc, answer.as_bytes())?)
}

fn print_told(rt: &HostRuntime, line: &str) -> anyhow::Result<()> {
    let (kind, rest) = line.split_once(' ').unwrap_or((line, ""));
    let answer = told(rt.alloc(), kind, rest)?;
    println!(rt; "{answer}")?;
    Ok(())
}

// What is told of a line, or the line itself.
fn print_line(rt: &HostRuntime, line: &str) -> anyhow::Result<()> {
    if line.starts_with('#') {
        println!(rt; "{line}")?;
        return Ok(());
    }
    print_told(rt, line)
}

fn main(rt: HostRuntime) -> anyhow::Result<()> {
    for line in rt.lines(rt.alloc()) {
        let line = line?;
        print_line(&rt, line.as_str())?;
    }
    Ok(())
}
