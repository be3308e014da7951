//! A stream in memory, which gives the bytes that it was made of.

ghost use Rattle.std.specs.Prelude.{◌≡◌, ◌≤◌, ℕ, ◌==◌, [], IfOk, length, true};

use crate::front::copy_front;
use children::{Failed, Source};
use mvn_shared::{Bytes, List, Mem};
use outside_mem::{Calls, Failures, NoFailures};
use std::alloc::Global;

/// A stream in memory. It tells what is left.
#[derive(Drop)]
pub struct MemSource<F> {
    bytes: Bytes,
    taken: usize,
    calls: F,
    ghost within: { taken ≤ length bytes },
}

impl MemSource<Calls> {
    ghost use Rattle.std.specs.List.{list_any};
    ghost use Rattle.child_mem.specs.Source.{read_fails, source_left};

    /// These bytes. The reads with the numbers fail, from 0 on.
    pub fn new(alloc: Global, bytes: Bytes, failing: &List<u64>) -> Mem<MemSource<Calls>>
        ensures value { IfOk result (λ source. source_left source ≡ bytes) }
        ensures failing { IfOk result (λ source. (n : ℕ) →
            read_fails source n ≡ list_any (λ m. n == m) failing.now) }
        ensures never { failing.now ≡ [] → IfOk result
            (λ source. ⟦<MemSource<Calls> as Source>⟧.never_fails source ≡ true) }
    {
        let calls = Calls::new(alloc, failing)?;
        Ok(MemSource {
            bytes,
            taken: 0,
            calls,
        })
    }
}

impl MemSource<NoFailures> {
    ghost use Rattle.child_mem.specs.Source.{source_left};

    /// These bytes. No read fails.
    pub fn without_failures(bytes: Bytes) -> MemSource<NoFailures>
        ensures value { source_left result ≡ bytes }
        ensures never { ⟦<MemSource<NoFailures> as Source>⟧.never_fails result ≡ true }
    {
        MemSource {
            bytes,
            taken: 0,
            calls: NoFailures,
        }
    }
}

impl<F: Failures> Source for MemSource<F> {
    ghost use Rattle.std.specs.Prelude.{Some, drop};

    ghost left = { λ source. Some (drop source.taken source.bytes) };

    ghost faults = { λ source. F.count source.calls };

    ghost never_fails = { λ source. F.never_fails source.calls };

    ghost no_faults = { λ source. F.no_faults source.calls };

    fn read(&mut self, into: &mut [u8]) -> Result<usize, Failed> {
        if self.calls.next_fails() {
            return Err(Failed);
        }
        let count = copy_front(&self.bytes.as_slice()[self.taken..], into);
        self.taken += count;
        Ok(count)
    }
}
