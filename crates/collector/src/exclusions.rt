//! `Exclusions`: what is left out below an edge, added to what is left out above it.

ghost use Rattle.std.specs.Prelude.{◌≡◌, ◌≢◌, ◌↔◌, ◌++◌, [], IsTrue, IfOk};
ghost use Rattle.collector.specs.Excluding.{is_excluded};
ghost use Rattle.collector.specs.Chains.{ExcludeSame};

use crate::ExclusionSet;
use crate::chain::Chain;
use model_types::{Dependency, Exclusion};
use mvn_shared::{List, Mem, Shared};
use std::alloc::Global;
use std::marker::Model;
use std::sync::Arc;

/// What is left out below an edge: what its declaration and the project's management add, after what is left out above,
/// which it shares. Contracts see the whole list.
#[derive(Drop)]
pub struct Exclusions {
    // Absent where nothing is left out.
    parts: Option<Shared<Parts>>,
}

impl Model for Exclusions {
    ghost use Rattle.std.specs.Prelude as logic;
    ghost use Rattle.std.specs.Coded.{codes};
    ghost use Rattle.model_types.specs.declared.dependency.Exclusion as rows;

    ghost Value = { logic.List rows.Exclusion };

    ghost coded = { Prim.hlevel (codes) };

    ghost view = { λ exclusions. logic.unwrap_or exclusions.parts logic.[] };
}

// Exclusions in their order, and the same to look up in. Contracts see the whole list.
#[derive(Drop)]
pub struct Parts {
    chain: Arc<Chain>,
    set: ExclusionSet,
}

impl Model for Parts {
    ghost use Rattle.std.specs.Prelude as logic;
    ghost use Rattle.std.specs.Arc.{arc_value};
    ghost use Rattle.std.specs.Coded.{codes};
    ghost use Rattle.model_types.specs.declared.dependency.Exclusion as rows;

    ghost Value = { logic.List rows.Exclusion };

    ghost coded = { Prim.hlevel (codes) };

    ghost view = { λ parts. arc_value parts.chain };

    ghost use Rattle.collector.specs.Chains.{ExcludeSame};

    ghost invariant = { λ parts. ExcludeSame parts.set (arc_value parts.chain) };
}

impl Parts {
    // The exclusions of a list. Costs one allocation, and putting each into a set.
    fn of(alloc: Global, list: List<Exclusion>) -> Mem<Parts>
        ensures { IfOk result (λ parts. parts ≡ list) }
    {
        let set = added(alloc, &ExclusionSet::new(), &list)?;
        let chain = Arc::new(alloc, Chain::of(list))?;
        Ok(Parts { chain, set })
    }

    // Whether there is no exclusion.
    fn has_none(&self) -> bool
        ensures { IsTrue result ↔ (self.now ≡ []) }
    {
        self.chain.is_empty()
    }

    // Whether one of them names a declaration.
    fn has_named(&self, dependency: &Dependency) -> bool
        ensures { result ≡ is_excluded self.now dependency.now }
    {
        self.set.excludes(dependency)
    }

    // These exclusions, which are shared, and others after them.
    fn longer(&self, alloc: Global, more: &List<Exclusion>) -> Mem<Parts>
        requires { more.now ≢ [] }
        ensures { IfOk result (λ parts. parts ≡ self.now ++ more.now) }
    {
        let above = Arc::try_clone(&self.chain)?;
        let own = copied(more)?;
        let set = added(alloc, &self.set, more)?;
        let chain = Arc::new(alloc, Chain::behind(above, own))?;
        Ok(Parts { chain, set })
    }
}

impl Exclusions {
    /// The exclusions of a list. Costs nothing where there is none, else two allocations, and putting each into a set.
    pub fn new(alloc: Global, list: List<Exclusion>) -> Mem<Exclusions>
        ensures { IfOk result (λ exclusions. exclusions ≡ list) }
    {
        if list.is_empty() {
            return Ok(Exclusions { parts: None });
        }
        of_parts(alloc, Parts::of(alloc, list)?)
    }

    /// The same exclusions, in constant time; nothing is copied.
    pub fn share(&self) -> Mem<Exclusions>
        ensures { IfOk result (λ exclusions. exclusions ≡ self.now) }
    {
        match &self.parts {
            None => Ok(Exclusions { parts: None }),
            Some(parts) => {
                let parts = parts.share()?;
                Ok(Exclusions { parts: Some(parts) })
            }
        }
    }

    /// Whether there is no exclusion. Constant time.
    pub fn is_empty(&self) -> bool
        ensures { IsTrue result ↔ (self.now ≡ []) }
    {
        match &self.parts {
            None => true,
            Some(parts) => parts.has_none(),
        }
    }

    // Whether one of them names a declaration. Costs some steps, however many there are.
    pub(crate) fn excludes(&self, dependency: &Dependency) -> bool
        ensures { result ≡ is_excluded self.now dependency.now }
    {
        match &self.parts {
            None => false,
            Some(parts) => parts.has_named(dependency),
        }
    }

    // These exclusions, which are shared, and others after them. Costs the others, and some steps for each of them to
    // put it into the set.
    pub(crate) fn with(&self, alloc: Global, more: &List<Exclusion>) -> Mem<Exclusions>
        ensures { IfOk result (λ exclusions. exclusions ≡ self.now ++ more.now) }
    {
        if more.is_empty() {
            return self.share();
        }
        match &self.parts {
            None => of_parts(alloc, Parts::of(alloc, copied(more)?)?),
            Some(parts) => of_parts(alloc, parts.longer(alloc, more)?),
        }
    }
}

// The exclusions of parts, which are shared from here on.
fn of_parts(alloc: Global, parts: Parts) -> Mem<Exclusions>
    ensures { IfOk result (λ exclusions. exclusions ≡ parts) }
{
    let parts = Shared::new(alloc, parts)?;
    Ok(Exclusions { parts: Some(parts) })
}

// A copy of a list.
fn copied(list: &List<Exclusion>) -> Mem<List<Exclusion>>
    ensures { IfOk result (λ copy. copy ≡ list.now) }
{
    Ok(list.clone()?)
}

// A set with the exclusions of a list.
fn added(alloc: Global, set: &ExclusionSet, more: &List<Exclusion>) -> Mem<ExclusionSet>
    ensures { IfOk result (λ all. ExcludeSame all (set.now ++ more.now)) }
{
    let mut all = set.share()?;
    for one in more.as_slice() {
        all = all.with(alloc, one)?;
    }
    Ok(all)
}
