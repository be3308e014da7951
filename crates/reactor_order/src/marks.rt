//! Marks on modules, with a list of those that are marked.

ghost use Rattle.std.specs.Prelude.{◌≡◌, ◌<◌, [], ◌∷◌, ◌++◌, false, length, get_or, IfOk, OnOk};
ghost use Rattle.reactor_order.specs.Graph.{AreBelow};
ghost use Rattle.reactor_order.specs.Marks.{AreFree, AreMarked, IsMarked};

use mvn_shared::Mem;
use std::alloc::Global;

/// Marks on modules, and the list of those that are marked.
#[derive(Drop)]
pub struct Marks {
    pub(crate) marks: Vec<bool>,
    pub(crate) found: Vec<u32>,
}

impl Marks {
    /// No marks, on so many modules. Costs their number.
    pub(crate) fn new(alloc: Global, n: usize) -> Mem<Marks>
        ensures { IfOk result (λ marks. AreFree n marks.marks.items marks.found.items) }
    {
        Ok(Marks {
            marks: vec![in alloc; false; n]?,
            found: Vec::new(alloc),
        })
    }

    /// Marks one module. Constant time.
    pub(crate) fn mark(&mut self, m: u32) -> Mem<()>
        requires marked { IsMarked self.old.marks.items self.old.found.items }
        requires below { m < length self.old.marks.items }
        ensures marked { OnOk result
            (AreMarked (m ∷ []) self.old.marks.items self.new.marks.items self.old.found.items
            self.new.found.items) }
        ensures found { OnOk result (get_or self.old.marks.items m false ≡ false →
            self.new.found.items ≡ self.old.found.items ++ m ∷ []) }
    {
        if !self.marks[m as usize] {
            self.found.push(m)?;
            self.marks[m as usize] = true;
        }
        Ok(())
    }

    /// Marks modules. Costs their number.
    pub(crate) fn mark_all(&mut self, more: &[u32]) -> Mem<()>
        requires marked { IsMarked self.old.marks.items self.old.found.items }
        requires below { AreBelow (length self.old.marks.items) more.now }
        ensures { OnOk result
            (AreMarked more.now self.old.marks.items self.new.marks.items self.old.found.items
            self.new.found.items) }
    {
        for m in more {
            self.mark(*m)?;
        }
        Ok(())
    }
}
