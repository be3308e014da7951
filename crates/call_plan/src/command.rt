// Reads the words of a call.
ghost use Rattle.std.specs.Prelude.{◌≡◌, ◌≤◌, IfOk};
ghost use Rattle.call_plan.specs.Commands.{asked};

use crate::outcome::word_fault;
use build_outcome::Outcome;
use cli_words::{CommandLine, WordError, options};
use mvn_shared::{Bytes, Mem, OutOfMemory};
use std::alloc::Global;

/// What the words ask for, of so many hands, or what is answered in its place: their first fault, with its place. Costs
/// the words' length. Maven's command-line options.
pub fn asked(alloc: Global, words: &[Bytes], hands: u32) -> Mem<Result<CommandLine, Outcome>>
    requires hands { (1 ≤ hands) × (hands ≤ 16) }
    ensures says { IfOk result (λ answer. answer ≡ asked words.now hands) }
    ensures workers { IfOk result (λ answer. IfOk answer (λ line.
        (1 ≤ line.workers) × (line.workers ≤ hands))) }
{
    match options(alloc, words, hands) {
        Ok(line) => Ok(Ok(line)),
        Err(WordError::Fault(fault)) => Ok(Err(word_fault(alloc, fault)?)),
        Err(WordError::Memory) => Err(OutOfMemory),
    }
}
