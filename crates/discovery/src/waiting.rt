//! `Waiting`: the modules that wait for their turn, as a stack.

ghost use Rattle.std.specs.Prelude.{◌≡◌, ◌∷◌, ◌++◌, [], IfOk};
ghost use Rattle.std.specs.Option.{MatchOption};

use crate::pom::Listed;
use mvn_shared::{List, Mem};
use std::alloc::Global;
use std::marker::Model;

/// The modules that wait for their turn, the next one last. Contracts see them with the next one first.
#[derive(Drop)]
pub struct Waiting {
    stack: Vec<Listed>,
}

impl Model for Waiting {
    ghost use Rattle.std.specs.Prelude as logic;
    ghost use Rattle.std.specs.Prelude.{reverse};
    ghost use Rattle.std.specs.Coded.{coded_list};
    ghost use Rattle.discovery.specs.declared.pom.Listed as modules;

    ghost Value = { logic.List modules.Listed };

    ghost view = { λ waiting. reverse waiting.stack.items };
}

impl Waiting {
    /// No modules wait. Takes no memory.
    pub fn new(alloc: Global) -> Waiting
        ensures { result ≡ [] }
    {
        Waiting {
            stack: Vec::new(alloc),
        }
    }

    /// The next one, and the others. Constant time.
    pub fn next(self) -> Option<(Listed, Waiting)>
        ensures { MatchOption result (self ≡ []) (λ e. self ≡ e.0 ∷ e.1) }
    {
        let Waiting { mut stack } = self;
        match stack.pop() {
            Some(listed) => Some((listed, Waiting { stack })),
            None => None,
        }
    }

    /// Further modules, which come first. Costs their number.
    pub fn after(self, modules: List<Listed>) -> Mem<Waiting>
        ensures { IfOk result (λ waiting. waiting ≡ modules ++ self) }
    {
        let Waiting { mut stack } = self;
        let mut modules = modules.into_vec();
        modules.reverse();
        stack.append(&mut modules)?;
        Ok(Waiting { stack })
    }
}
