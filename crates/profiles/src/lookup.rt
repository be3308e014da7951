//! The properties that criteria may name: of the command line, the system and the environment.

ghost use Rattle.std.specs.Prelude.{◌≡◌, ℕ, List as Items, option_map, IfOk};
ghost use Rattle.std.specs.Option.{option_copied};
ghost use Rattle.profiles.specs.Lookups.{behind, property_of};
ghost use Rattle.profiles.specs.Known.{known_value, variable};

use interpolation::Values;
use mvn_base::{Machine, Pair};
use mvn_shared::{Mem, Text};
use std::alloc::Global;

/// What stands after the beginning of a text, where it has it. Costs the beginning. Project rule.
pub fn behind<'a>(front: &str, text: &'a str) -> Option<&'a str>
    ensures { option_map (λ x. x.now) result ≡ behind front.now text.now }
{
    text.strip_prefix(front)
}

/// The properties of the command line, of the system and of the environment.
#[derive(Drop)]
pub(crate) struct Known {
    defines: Values,
    system: Values,
    env: Values,
}

impl Known {
    /// The properties of these lists. Costs the lists, on the average.
    pub(crate) fn of(alloc: Global, defines: &[Pair], machine: &Machine) -> Mem<Known>
        ensures { IfOk result (λ known. (name : Items ℕ) → known_value known name
            ≡ property_of defines.now machine.now.system machine.now.env name) }
    {
        let defines = Values::of(alloc, defines)?;
        let system = Values::of(alloc, machine.system.as_slice())?;
        let env = Values::of(alloc, machine.env.as_slice())?;
        Ok(Known {
            defines,
            system,
            env,
        })
    }

    // The value of a variable of the environment, by its name after `env.`.
    fn variable(&self, alloc: Global, name: &Text) -> Mem<Option<Text>>
        ensures { IfOk result (λ value. value ≡ variable self.now.env name.now) }
    {
        match behind("env.", name.as_str()) {
            Some(name) => copied(self.env.get(&Text::from_str(alloc, name)?)),
            None => Ok(None),
        }
    }

    /// The value of a property.
    pub(crate) fn value(&self, alloc: Global, name: &Text) -> Mem<Option<Text>>
        ensures { IfOk result (λ value. value ≡ known_value self.now name.now) }
    {
        if let Some(value) = self.defines.get(name) {
            return Ok(Some(value.clone()?));
        }
        if let Some(value) = self.system.get(name) {
            return Ok(Some(value.clone()?));
        }
        self.variable(alloc, name)
    }
}

// A copy of a value.
fn copied(value: Option<&Text>) -> Mem<Option<Text>>
    ensures { IfOk result (λ copy. copy ≡ option_copied value.entry) }
{
    match value {
        Some(value) => Ok(Some(value.clone()?)),
        None => Ok(None),
    }
}
