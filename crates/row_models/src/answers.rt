// What is answered to a row.
use mvn_base::{ModelError, Refusal};
use mvn_shared::Mem;
use std::alloc::Global;

/// A word as an answer.
pub fn word(alloc: Global, word: &str) -> Mem<String> {
    Ok(String::from_str(alloc, word)?)
}

// The number of the rule, and the place.
fn refused(alloc: Global, refusal: &Refusal) -> Mem<String> {
    let number = refusal.rule.number();
    let place = &refusal.place;
    Ok(format!(in alloc; "{number} {place}")?)
}

/// What is told of a row. A refused POM is answered by the number of the rule and the place.
pub fn answer(alloc: Global, told: Result<String, ModelError>) -> Mem<String> {
    match told {
        Ok(shown) => Ok(shown),
        Err(ModelError::Refused(refusal)) => refused(alloc, &refusal),
        Err(ModelError::Memory) => word(alloc, "out of memory"),
    }
}
