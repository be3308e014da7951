//! The program `text_rows` answers rows about texts: POM texts, versions, requirements, expressions and paths.
//!
//! A line of standard input is a word, which says what is asked for, and fields with a space between two of them, spelled as
//! `row_fields` says; the answer is printed as one line. In it all bytes but the printed ones of ASCII are spelled `\xNN`. A line that
//! begins with `#` is printed as it stands.
//!
//! - `pom TEXT`: the elements of a POM text, each as `name[attribute,](text){child,}`, or why it is none; `count TEXT`: how many elements
//!   and attributes it has, and how many bytes their names and texts
//! - `sorted VERSION ..`: the versions in order, with how each compares with the next; `compare A B`: how they compare; `among-short A`:
//!   how it compares with each of all texts of four bytes of `01a.-`
//! - `admits REQUIREMENT VERSION ..`: whether it is hard, and which versions it admits; `highest REQUIREMENT VERSION ..`: the place of
//!   the highest
//! - `parts TEXT`: the parts of a text with expressions; `value NAME NAME=VALUE ..`; `path FOLDER PATH`: the path in the folder
#![tactic(auto)]

mod poms;
mod values;
mod version_rows;

use mvn_shared::{Mem, Text};
use row_fields::{escaped, texts, unescaped};
use std::alloc::Global;

// What is told of a row whose fields are texts.
fn told_of_texts(alloc: Global, kind: &str, texts: &[Text]) -> Mem<String> {
    match kind {
        "sorted" | "compare" | "among-short" | "admits" | "highest" => {
            version_rows::told(alloc, kind, texts)
        }
        _ => values::told(alloc, kind, texts),
    }
}

// What is told of a row whose field is bytes.
fn told_of_bytes(alloc: Global, kind: &str, field: &[u8]) -> Mem<String> {
    match kind {
        "pom" => poms::outline(alloc, field),
        _ => poms::count(alloc, field),
    }
}

fn answer_to_texts(alloc: Global, kind: &str, rest: &str) -> anyhow::Result<String> {
    let texts = texts(alloc, rest)?;
    Ok(told_of_texts(alloc, kind, texts.as_slice())?)
}

fn answer_to_bytes(alloc: Global, kind: &str, rest: &str) -> Mem<String> {
    let field = unescaped(alloc, rest)?;
    told_of_bytes(alloc, kind, field.as_slice())
}

// What is told of a row, as it is.
fn answer(alloc: Global, kind: &str, rest: &str) -> anyhow::Result<String> {
    match kind {
        "pom" | "count" => Ok(answer_to_bytes(alloc, kind, rest)?),
        _ => answer_to_texts(alloc, kind, rest),
    }
}

// What is told of a row.
fn told(alloc: Global, kind: &str, rest: &str) -> anyhow::Result<String> {
    let answer = answer(alloc, kind, rest)?;
    Ok(escaped(alloc, answer.as_bytes())?)
}

fn print_told(rt: &HostRuntime, line: &str) -> anyhow::Result<()> {
    let (kind, rest) = line.split_once(' ').unwrap_or((line, ""));
    let answer = told(rt.alloc(), kind, rest)?;
    println!(rt; "{answer}")?;
    Ok(())
}

// What is told of a line, or the line itself.
fn print_line(rt: &HostRuntime, line: &str) -> anyhow::Result<()> {
    if line.starts_with('#') {
        println!(rt; "{line}")?;
        return Ok(());
    }
    print_told(rt, line)
}

fn main(rt: HostRuntime) -> anyhow::Result<()> {
    for line in rt.lines(rt.alloc()) {
        let line = line?;
        print_line(&rt, line.as_str())?;
    }
    Ok(())
}
