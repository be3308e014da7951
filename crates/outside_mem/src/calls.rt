//! Which calls of an object fail, and how many faults that made.

ghost use Rattle.std.specs.Prelude.{◌≡◌, ℕ, Bool, true, ◌+◌, ◌==◌, [], min, IfOk};
ghost use Rattle.std.specs.List.{list_any};
ghost use Rattle.mvn_shared.specs.Cause.{HasCause, last_count};

use mvn_shared::{List, Mem};
use std::alloc::Global;
use std::collections::BTreeSet;

/// Which calls of an object in memory fail, and how many have.
pub trait Failures {
    /// The faults so far. The count never falls.
    ghost count: { Self → ℕ };

    /// Whether no call fails. The count is then the constant 0.
    ghost never_fails: { Self → Bool };

    /// Counts a call, and says whether it fails.
    fn next_fails(&mut self) -> bool
        ensures never { never_fails self.new ≡ never_fails self.old }
        ensures cause { HasCause (count self.old) (count self.new) result };

    /// Where no call fails, there is no fault.
    ghost no_faults: { (calls : Self) → never_fails calls ≡ true → count calls ≡ 0 };
}

/// No call fails: the count of faults is the constant 0.
#[derive(Clone, Copy, Drop)]
pub struct NoFailures;

impl Failures for NoFailures {
    ghost use Rattle.std.specs.Prelude.{true, refl};

    ghost count = { λ _. 0 };

    ghost never_fails = { λ _. true };

    ghost no_faults = { λ _ _. refl };

    fn next_fails(&mut self) -> bool {
        false
    }
}

/// The calls of an object, numbered from 0, and which of them fail. The count of faults stands at 0 where none does.
#[derive(Drop)]
pub struct Calls {
    failing: BTreeSet<u64>,
    next: u64,
    faults: u64,
    ghost quiet: { failing.keys ≡ [] → faults ≡ 0 },
}

impl Calls {
    ghost use Rattle.outside_mem.specs.Calls.{fails, fault_count, call_number, never_fails};

    /// No call yet. The calls with these numbers will fail. Costs n log n.
    pub fn new(alloc: Global, failing: &List<u64>) -> Mem<Calls>
        ensures failing { IfOk result (λ calls. (n : ℕ) →
            fails calls n ≡ list_any (λ m. n == m) failing.now) }
        ensures none { failing.now ≡ [] → IfOk result (λ calls. never_fails calls ≡ true) }
        ensures count { IfOk result (λ calls. (fault_count calls ≡ 0) × (call_number calls ≡ 0)) }
    {
        let mut set = BTreeSet::new(alloc);
        for n in failing.as_slice() {
            set.insert(*n)?;
        }
        Ok(Calls {
            failing: set,
            next: 0,
            faults: 0,
        })
    }

    /// Counts a call, and says whether it is among those that fail.
    pub fn count_call(&mut self) -> bool
        ensures answer { result ≡ fails self.old (call_number self.old) }
        ensures cause { HasCause (fault_count self.old) (fault_count self.new) result }
        ensures number { call_number self.new ≡ min (call_number self.old + 1) last_count }
        ensures same { (n : ℕ) → fails self.new n ≡ fails self.old n }
        ensures never { never_fails self.new ≡ never_fails self.old }
    {
        let failed = self.failing.contains(&self.next);
        self.next = self.next.saturating_add(1);
        if failed {
            self.faults = self.faults.saturating_add(1);
        }
        failed
    }

    /// The faults so far.
    pub fn faults(&self) -> u64
        ensures value { result ≡ fault_count self.now }
        ensures never { never_fails self.now ≡ true → result ≡ 0 }
    {
        self.faults
    }
}

impl Failures for Calls {
    ghost use Rattle.outside_mem.specs.Calls.{fault_count, never_fails, no_faults};

    ghost count = { fault_count };

    ghost never_fails = { never_fails };

    ghost no_faults = { no_faults };

    fn next_fails(&mut self) -> bool {
        self.count_call()
    }
}
