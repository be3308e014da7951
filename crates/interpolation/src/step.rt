//! A name on the way to its value, and the limit on the length of a filled text.

ghost use Rattle.std.specs.Prelude.{◌≡◌, ◌++◌, [], IfOk};
ghost use Rattle.interpolation.specs.Parts.{parts};
ghost use Rattle.interpolation.specs.Tables.{Grows, Tells, rest_of};
ghost use Rattle.interpolation.specs.KnownValues.{limited};

use crate::fault::{FillFault, refused};
use crate::{Part, parts};
use mvn_base::Rule;
use mvn_shared::{Mem, Text};
use std::alloc::Global;
use std::vec::IntoIter;

// The bytes that a filled text may have.
pub(crate) const LONGEST: usize = 65536;

/// A name on the way: what is left of the parts of its text, and what those before them came to.
#[derive(Drop)]
pub(crate) struct Step {
    pub(crate) name: Text,
    pub(crate) rest: IntoIter<Part>,
    pub(crate) done: Text,
}

impl Step {
    /// A name whose text is begun. Costs the text.
    pub(crate) fn of(alloc: Global, name: Text, text: &Text) -> Mem<Step>
        ensures name { IfOk result (λ step. step.name ≡ name) }
        ensures rest { IfOk result (λ step. rest_of step ≡ parts text.now) }
        ensures done { IfOk result (λ step. step.done ≡ []) }
    {
        let rest = parts(alloc, text)?.into_vec().into_iter();
        let done = Text::of(String::new(alloc));
        Ok(Step { name, rest, done })
    }

    /// The step with what one part of its text came to. Costs that.
    pub(crate) fn with(self, alloc: Global, text: &Text) -> Result<Step, FillFault>
        ensures { Grows self text.now result }
    {
        let Step { name, rest, done } = self;
        match longer(alloc, name.as_str(), done, text) {
            Ok(done) => Ok(Step { name, rest, done }),
            Err(fault) => Err(fault),
        }
    }
}

// A text after another.
fn joined(done: Text, more: &Text) -> Mem<Text>
    ensures { IfOk result (λ text. text ≡ done ++ more.now) }
{
    let mut text = done;
    text.push_str(more.as_str())?;
    Ok(text)
}

/// A text after another, where both are no longer than a filled text may be. Costs the second.
pub(crate) fn longer(alloc: Global, place: &str, done: Text, more: &Text) -> Result<Text, FillFault>
    ensures { Tells (limited place.now (done ++ more.now)) result }
{
    if done.len() > LONGEST || more.len() > LONGEST - done.len() {
        return Err(refused(alloc, Rule::TooLarge, place));
    }
    let text = joined(done, more)?;
    Ok(text)
}
