//! The program `bench_elements` reads a POM from standard input, and tells how many elements it has, or by which rule it is none and from
//! which byte on.
//!
//! Where the word `model` stands after the program's name it reads the model too, and tells how many profiles that states, or its
//! refusal: so what a model costs is the difference of two runs, the other with the word `text`. A number after the word says how many
//! times all of it is read in one process, where each reading is let go before the next.
#![tactic(auto)]

use model_types::RawModel;
use mvn_base::{ModelError, PomId};
use mvn_shared::{Mem, Text};
use pom_model::read_model;
use pom_text::{PomText, TextFault, read_text};
use std::alloc::Global;
use std::env::Env;
use std::io::Read;

// How many profiles a model states, or its refusal.
fn model_text(alloc: Global, model: &Result<RawModel, ModelError>) -> Mem<String> {
    match model {
        Ok(model) => {
            let profiles = model.profiles.as_slice().len();
            Ok(format!(in alloc; "{profiles} profiles")?)
        }
        Err(ModelError::Refused(refusal)) => Ok(format!(in alloc; "{refusal}")?),
        Err(ModelError::Memory) => Ok(String::from_str(alloc, "out of memory")?),
    }
}

// How many profiles the model of a POM of these elements states, or its refusal.
fn told_model(alloc: Global, text: &PomText) -> Mem<String> {
    let pom = PomId::Path(Text::from_str(alloc, "pom.xml")?);
    let model = read_model(alloc, text, &pom);
    model_text(alloc, &model)
}

fn told_elements(alloc: Global, text: &PomText) -> Mem<String> {
    let elements = text.nodes.as_slice().len();
    Ok(format!(in alloc; "{elements} elements")?)
}

// What is told of a POM, or why it is none.
fn told(alloc: Global, text: &Result<PomText, TextFault>, has_model: bool) -> Mem<String> {
    match text {
        Ok(text) if has_model => told_model(alloc, text),
        Ok(text) => told_elements(alloc, text),
        Err(fault) => Ok(format!(in alloc; "{fault}")?),
    }
}

// Reads the bytes as many times, and lets go of what each reading gives.
fn read_times(alloc: Global, bytes: &[u8], has_model: bool, times: u32) -> Mem<()> {
    for _ in 0..times {
        let text = read_text(alloc, bytes);
        told(alloc, &text, has_model)?;
    }
    Ok(())
}

// The word of this number after the program's name; an empty one where there is none.
fn word(rt: &HostRuntime, number: usize) -> Mem<String> {
    let mut room = [0u8; 64];
    let len = rt.arg(number, &mut room).unwrap_or(0);
    let word = std::str::from_utf8(&room[..len]).unwrap_or("");
    Ok(String::from_str(rt.alloc(), word)?)
}

// Room for the longest POM text, so that reading it in is no part of what is measured.
const ROOM: usize = 1_114_112;

fn main(rt: HostRuntime) -> anyhow::Result<()> {
    let mut bytes = Vec::with_capacity(rt.alloc(), ROOM)?;
    rt.stdin().read_to_end(&mut bytes)?;
    let has_model = word(&rt, 1)?.as_str() == "model";
    let times = word(&rt, 2)?.parse::<u32>().unwrap_or(1);
    read_times(
        rt.alloc(),
        bytes.as_slice(),
        has_model,
        times.saturating_sub(1),
    )?;
    let text = read_text(rt.alloc(), bytes.as_slice());
    let told = told(rt.alloc(), &text, has_model)?;
    println!(rt; "{told}")?;
    Ok(())
}
