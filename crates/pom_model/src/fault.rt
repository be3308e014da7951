//! The first refusal of a POM's elements: the rule, and the path of the element or the text.

ghost use Rattle.std.specs.Prelude.{◌≡◌, ◌<◌, ℕ, IfOk};
ghost use Rattle.pom_model.specs.Faults.{at_path, is_repeated, joined, step, under};

use crate::table::Times;
use mvn_base::Rule;
use mvn_shared::{Mem, Text};
use std::alloc::Global;

/// What a refusal names: an element, by its path from another, or a text of the POM.
#[derive(Drop)]
pub enum Spot {
    Path(Text),
    Own(Text),
}

/// A rule that isn't met, and where.
#[derive(Drop)]
pub struct Fault {
    pub rule: Rule,
    pub spot: Spot,
}

// A path goes on from one element to another.
fn joined(alloc: Global, step: &str, path: Text) -> Mem<Text>
    ensures { IfOk result (λ text. text ≡ joined step.now path) }
{
    if path.as_str().is_empty() {
        Text::from_str(alloc, step)
    } else {
        Ok(Text::of(format!(in alloc; "{step}/{path}")?))
    }
}

impl Fault {
    /// A refusal of the element at a path.
    pub(crate) fn at_path(alloc: Global, rule: Rule, path: &str) -> Mem<Fault>
        ensures { IfOk result (λ fault. fault ≡ at_path rule path.now) }
    {
        let spot = Spot::Path(Text::from_str(alloc, path)?);
        Ok(Fault { rule, spot })
    }

    /// The same refusal, named from an element further out. Costs the path's length.
    #[tactic(auto, unfolding(crate::specs::Faults::under))]
    pub(crate) fn under(self, alloc: Global, step: &str) -> Mem<Fault>
        ensures { IfOk result (λ fault. fault ≡ under step.now self) }
    {
        let rule = self.rule;
        match self.spot {
            Spot::Path(path) => {
                let spot = Spot::Path(joined(alloc, step, path)?);
                Ok(Fault { rule, spot })
            }
            Spot::Own(text) => {
                let spot = Spot::Own(text);
                Ok(Fault { rule, spot })
            }
        }
    }
}

impl Times {
    /// Whether an element may stand as often as there are items.
    pub(crate) fn is_repeated(self) -> bool
        ensures { result ≡ is_repeated self }
    {
        matches!(self, Times::Repeated)
    }

    /// One step of a path: a name, or that of an item with its number from 1, after so many others.
    #[tactic(auto, unfolding(crate::specs::Faults::step))]
    pub(crate) fn step(self, alloc: Global, read: usize, name: &str) -> Mem<Text>
        requires { read < 18446744073709551615 }
        ensures { IfOk result (λ text. text ≡ step self read name.now) }
    {
        if self.is_repeated() {
            let number = read + 1;
            Ok(Text::of(format!(in alloc; "{name}[{number}]")?))
        } else {
            Text::from_str(alloc, name)
        }
    }
}
