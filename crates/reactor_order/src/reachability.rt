// Which modules one comes to from each, kept while edges come in.
ghost use Rattle.std.specs.Prelude.{◌≡◌, ◌↔◌, ℕ, ◌+◌, ◌<◌, ◌≤◌, ◌^◌, ◌==◌, ◌&&◌, ◌||◌, true, [], ◌∷◌, ◌++◌, length, get_or, IfOk, OnOk};
ghost use Rattle.reactor_order.specs.Graph.{AreEdgesBelow, Edges, Leads, upstreams};
ghost use Rattle.reactor_order.specs.Rows.{is_in, words_for, AreRows, IsReachability};

use crate::row::Row;
use mvn_shared::Mem;
use std::alloc::Global;

/// For each module the ones that one comes to over upstreams, and the ones from which one comes to it: each to and from
/// itself.
#[derive(Drop)]
pub(crate) struct Reachability {
    pub(crate) n: u32,
    pub(crate) ups: Vec<Row>,
    pub(crate) downs: Vec<Row>,
    ghost up_rows: { AreRows n ups.items },
    ghost down_rows: { AreRows n downs.items },
}

// A row for each module, with the module itself alone.
fn own_rows(alloc: Global, n: u32) -> Mem<Vec<Row>>
    ensures rows { IfOk result (λ rows. AreRows n rows.items) }
    ensures own { IfOk result (λ rows. (a b : ℕ) → a < n
        → is_in (get_or rows.items a []) b ≡ (a == b)) }
{
    let mut rows = Vec::with_capacity(alloc, n as usize)?;
    for m in 0..n {
        let mut row = Row::none(alloc, n)?;
        row.put(m);
        rows.push(row)?;
    }
    Ok(rows)
}

// Puts what is in one row into the rows of the modules in another.
fn spread(n: u32, rows: &mut Vec<Row>, modules: &Row, more: &Row)
    requires rows { AreRows n rows.old.items }
    requires modules { length modules.now ≡ words_for n }
    requires more { length more.now ≡ words_for n }
    ensures rows { AreRows n rows.new.items }
    ensures each { (a b : ℕ) → a < n → is_in (get_or rows.new.items a []) b
        ≡ (is_in (get_or rows.old.items a []) b || (is_in modules.now a && is_in more.now b)) }
{
    let mut m = 0;
    while m < n {
        let gap = modules.gap(m);
        if gap == 0 {
            rows[m as usize].join(more);
            m += 1;
        } else {
            m = m.saturating_add(gap);
        }
    }
}

impl Reachability {
    // No edge.
    fn new(alloc: Global, n: u32) -> Mem<Reachability>
        ensures number { IfOk result (λ reach. reach.n ≡ n) }
        ensures none { IfOk result (λ r. IsReachability n [] r.ups.items r.downs.items) }
    {
        let ups = own_rows(alloc, n)?;
        let downs = own_rows(alloc, n)?;
        Ok(Reachability { n, ups, downs })
    }

    /// Whether one comes from a module to another. Constant time.
    pub(crate) fn leads(&self, from: u32, to: u32) -> bool
        requires from { from < self.now.n }
        requires to { to < self.now.n }
        ensures { (edges : Edges)
            → IsReachability self.now.n edges self.now.ups.items self.now.downs.items
            → (result ≡ true) ↔ Leads (upstreams edges) from to }
    {
        self.ups[from as usize].has(to)
    }

    /// One edge more. Constant time where one comes from the module to the upstream already; else it costs a sixty-fourth of the
    /// modules, and that for each module that now leads to another.
    pub(crate) fn add(&mut self, alloc: Global, m: u32, upstream: u32) -> Mem<()>
        requires m { m < self.old.n }
        requires upstream { upstream < self.old.n }
        ensures number { self.new.n ≡ self.old.n }
        ensures more { (edges : Edges)
            → IsReachability self.old.n edges self.old.ups.items self.old.downs.items
            → OnOk result (IsReachability self.old.n (edges ++ (m, upstream) ∷ [])
            self.new.ups.items self.new.downs.items) }
    {
        if self.leads(m, upstream) {
            return Ok(());
        }
        let above = self.ups[upstream as usize].without(alloc, &self.ups[m as usize])?;
        let below = self.downs[m as usize].without(alloc, &self.downs[upstream as usize])?;
        spread(self.n, &mut self.ups, &below, &above);
        spread(self.n, &mut self.downs, &above, &below);
        Ok(())
    }

    /// These edges, which are a module and an upstream, each below `n`.
    pub(crate) fn of(alloc: Global, n: u32, edges: &[(u32, u32)]) -> Mem<Reachability>
        requires { AreEdgesBelow n edges.now }
        ensures number { IfOk result (λ reach. reach.n ≡ n) }
        ensures edges { IfOk result (λ r. IsReachability n edges.now r.ups.items r.downs.items) }
    {
        let mut reach = Reachability::new(alloc, n)?;
        for (m, upstream) in edges {
            reach.add(alloc, *m, *upstream)?;
        }
        Ok(reach)
    }
}
