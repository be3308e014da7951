// Words as answers.
use mvn_shared::Mem;
use std::alloc::Global;

/// A word as an answer.
pub fn word(alloc: Global, word: &str) -> Mem<String> {
    Ok(String::from_str(alloc, word)?)
}
