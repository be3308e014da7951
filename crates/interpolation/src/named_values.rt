//! `Values`: values by name, of equal names the last.

ghost use Rattle.std.specs.Prelude.{◌≡◌, ℕ, [], List as Items, Some, None, if◌then◌else◌, IfOk, OnOk};
ghost use Rattle.std.specs.Option.{option_copied, option_or};
ghost use Rattle.std.specs.Str.{bytes_eq};
ghost use Rattle.interpolation.specs.Expressions.{last_named, value_of};

use indexmap::IndexMap;
use mvn_base::Pair;
use mvn_shared::{Mem, Text};
use std::alloc::Global;
use std::marker::Model;

/// Values by name, of equal names the last. Contracts see it as the list of its names and values.
#[derive(Drop)]
pub struct Values {
    entries: IndexMap<Text, Text>,
}

impl Model for Values {
    ghost use Rattle.std.specs.Prelude.{ℕ};
    ghost use Rattle.std.specs.Prelude as logic;
    ghost use Rattle.std.specs.Coded.{coded_list};

    ghost Value = { logic.List (logic.List ℕ × logic.List ℕ) };

    ghost view = { λ values. values.entries.entries };
}

impl Values {
    // No value yet.
    fn new(alloc: Global) -> Values
        ensures { result ≡ [] }
    {
        Values {
            entries: IndexMap::new(alloc),
        }
    }

    // One more, in the place of an earlier one of its name.
    fn add(&mut self, pair: &Pair) -> Mem<()>
        ensures { OnOk result ((q : Items ℕ) →
            value_of self.new q
            ≡ option_or (if bytes_eq pair.now.name q then Some pair.now.value else None)
            (value_of self.old q)) }
    {
        let name = pair.name.clone()?;
        let value = pair.value.clone()?;
        self.entries.insert(name, value)?;
        Ok(())
    }

    /// The values of a list. Costs its number and texts, on the average.
    pub fn of(alloc: Global, pairs: &[Pair]) -> Mem<Values>
        ensures { IfOk result (λ values. (q : Items ℕ) →
            value_of values q ≡ last_named pairs.now q) }
    {
        let mut values = Values::new(alloc);
        for pair in pairs {
            values.add(pair)?;
        }
        Ok(values)
    }

    /// The value of a name. Constant time on the average, besides the name; takes no memory.
    pub fn get(&self, name: &Text) -> Option<&Text>
        ensures { option_copied result ≡ value_of self.now name.now }
    {
        self.entries.get(name)
    }
}
