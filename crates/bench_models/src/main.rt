//! The program `bench_models` joins models and fills in their expressions, each of the size that a line asks for.
//!
//! A line of standard input is a word and a number; the program prints the dependencies that come out, or the bytes:
//!
//! - `inherit`: a POM of so many dependencies over one of as many, of which the two share half
//! - `inject`: a POM of so many dependencies with a profile of half of them
//! - `chain`: so many properties, each of which names the next one; the last is one byte
//! - `long`: so many properties, of which the first has 65,536 bytes and each other names it
#![tactic(auto)]

mod models;

use models::{chained, inherited, injected, long};
use mvn_shared::Mem;
use std::alloc::Global;

// What comes out for a word and a number.
fn count(alloc: Global, word: &str, number: u32) -> Mem<usize> {
    match word {
        "inherit" => inherited(alloc, number),
        "inject" => injected(alloc, number),
        "chain" => chained(alloc, number),
        "long" => long(alloc, number),
        _ => Ok(0),
    }
}

fn print_count(rt: &HostRuntime, word: &str, number: u32) -> anyhow::Result<()> {
    match count(rt.alloc(), word, number) {
        Ok(count) => println!(rt; "{word} {number}: {count}")?,
        Err(_) => println!(rt; "out of memory")?,
    }
    Ok(())
}

fn main(rt: HostRuntime) -> anyhow::Result<()> {
    for line in rt.lines(rt.alloc()) {
        let line = line?;
        if let Some((word, number)) = line.as_str().split_once(' ') {
            print_count(&rt, word, number.parse::<u32>().unwrap_or(0))?;
        }
    }
    Ok(())
}
