//! `Below`: the POMs that are built for an import, and how deep they lie.

ghost use Rattle.std.specs.Prelude.{◌≡◌, ◌≤◌, ◌+◌, ℕ, List as Items, true, ◌||◌, ◌&&◌, IfOk};
ghost use Rattle.mvn_base.specs.declared.refusal.PomId as ids;
ghost use Rattle.lineage.specs.Lineage.{is_in};
ghost use Rattle.lineage.specs.Stores.{meets};
ghost use Rattle.effective.specs.Serving.{serves};

use lineage::is_in;
use mvn_base::PomId;
use mvn_shared::{List, Mem};
use std::alloc::Global;

/// The POMs that are built for an import, and how many of them at once. Project rule.
#[derive(Drop)]
pub struct Below {
    pub poms: List<PomId>,
    pub depth: u64,
}

// POMs and one more, unless it is among them.
#[tactic(auto, using(crate::proofs::Meeting::met_already, crate::proofs::Meeting::met_more))]
fn with_pom(poms: List<PomId>, pom: &PomId) -> Mem<List<PomId>>
    ensures { IfOk result (λ all. (seen : Items ids.PomId)
        → meets all seen ≡ (meets poms seen || is_in pom.now seen)) }
{
    if is_in(pom, &poms) {
        return Ok(poms);
    }
    let mut all = poms;
    all.push(pom.clone()?)?;
    Ok(all)
}

// The POMs of two lists.
#[tactic(auto, using(crate::proofs::Meeting::none_met, crate::proofs::Meeting::rest_met, crate::proofs::Meeting::all_met))]
fn united(poms: List<PomId>, more: &List<PomId>) -> Mem<List<PomId>>
    ensures { IfOk result (λ all. (seen : Items ids.PomId)
        → meets all seen ≡ (meets poms seen || meets more.now seen)) }
{
    let mut all = poms;
    for pom in more.as_slice() {
        all = with_pom(all, pom)?;
    }
    Ok(all)
}

impl Below {
    /// No POM is built.
    pub fn none(alloc: Global) -> Below
        ensures { (left : ℕ) (building : Items ids.PomId) → serves left building result ≡ true }
    {
        let poms = List::new(alloc);
        Below { poms, depth: 0 }
    }

    /// A copy.
    pub fn copy(&self) -> Mem<Below>
        ensures { IfOk result (λ same. same ≡ self.now) }
    {
        let poms = self.poms.clone()?;
        Ok(Below {
            poms,
            depth: self.depth,
        })
    }

    /// The POMs that are built for two. Costs their product.
    #[tactic(auto, using(crate::proofs::Meeting::both_serve))]
    pub fn and(self, other: &Below) -> Mem<Below>
        ensures { IfOk result (λ both. (left : ℕ) (building : Items ids.PomId)
            → serves left building both
            ≡ (serves left building self && serves left building other.now)) }
    {
        let depth = self.depth.max(other.depth);
        let poms = united(self.poms, &other.poms)?;
        Ok(Below { poms, depth })
    }

    /// These POMs, and one besides that is as deep.
    pub fn with_own(self, pom: &PomId) -> Mem<Below>
        ensures depth { IfOk result (λ all. all.depth ≡ self.depth) }
        ensures poms { IfOk result (λ all. (seen : Items ids.PomId)
            → meets all.poms seen ≡ (meets self.poms seen || is_in pom.now seen)) }
    {
        let depth = self.depth;
        let poms = with_pom(self.poms, pom)?;
        Ok(Below { poms, depth })
    }

    /// The same POMs, one level deeper. It was at most so deep.
    pub fn deeper(self, most: u32) -> Below
        requires { self.depth ≤ most }
        ensures depth { result.depth ≡ self.depth + 1 }
        ensures poms { result.poms ≡ self.poms }
    {
        Below {
            poms: self.poms,
            depth: self.depth + 1,
        }
    }
}
