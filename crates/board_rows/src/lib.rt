//! Rows about builds that a board plays in one thread are answered: each is compared with the build of the same project by one hand.
//!
//! The board takes the turns of 1 to 4 workers in an order that is drawn, over objects in memory. The answer to a row is the row itself,
//! and then what comes of it:
//!
//! - `calm FIRST COUNT`: of so many projects of up to 5 modules that are made from numbers, from the first on, how many left other
//!   endings, files or answers than one hand leaves
//! - `faults FIRST COUNT`: the same where calls of the repository, of the workers' remotes and areas, and of goals fail: how many left a
//!   file that is neither from before nor one hand's, or a module otherwise than one hand that no fault touched; and whether enough had a
//!   fault
#![tactic(auto)]

mod play;
mod tell;

use mvn_shared::Mem;
use std::alloc::Global;
use tell::{Counts, NONE, tell};

// The number that a word spells, or 0.
fn number(word: &str) -> u32 {
    word.parse::<u32>().unwrap_or(0)
}

fn counted(alloc: Global, faulty: bool, first: u32, count: u32) -> Mem<Counts> {
    let mut counts = NONE;
    for at in 0..count {
        let seed = first.wrapping_add(at);
        counts.count(seed, tell(alloc, seed, faulty)?);
    }
    Ok(counts)
}

// How many builds left what they may not, and the number of the last of them, after these words.
fn counts_text(alloc: Global, much: &str, counts: &Counts) -> Mem<String> {
    let last = counts.last_wrong;
    match counts.wrong {
        0 => Ok(format!(in alloc; "{much}none different\n")?),
        wrong => Ok(format!(in alloc; "{much}{wrong} different, the last of them {last}\n")?),
    }
}

// How many of so many builds had a fault, where calls fail.
fn much(faulty: bool, counts: &Counts, count: u32) -> &'static str {
    if !faulty {
        return "";
    }
    if counts.faulty >= count / 4 {
        "at least a quarter with a fault, "
    } else {
        "less than a quarter with a fault, "
    }
}

// What is told of a row: a word and two numbers.
fn told(alloc: Global, row: &str) -> Mem<String> {
    let (kind, numbers) = row.split_once(' ').unwrap_or((row, ""));
    let (first, count) = numbers.split_once(' ').unwrap_or((numbers, ""));
    let count = number(count);
    let faulty = kind == "faults";
    let counts = counted(alloc, faulty, number(first), count)?;
    counts_text(alloc, much(faulty, &counts, count), &counts)
}

/// Adds a row about builds by a board, and what is told of it. Project rule.
pub fn push_told(alloc: Global, row: &str, text: &mut String) -> Mem<()> {
    text.push_str(row)?;
    text.push_str("\n")?;
    text.push_str(told(alloc, row)?.as_str())?;
    Ok(())
}
