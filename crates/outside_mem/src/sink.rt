//! A sink that keeps the bytes that are written to it.

ghost use Rattle.std.specs.Prelude.{◌≡◌, [], IfOk, true};

use crate::calls::{Calls, Failures, NoFailures};
use mvn_outside::{DeviceFault, Sink};
use mvn_shared::{List, Mem};
use std::alloc::Global;

/// A sink in memory. It tells what was written.
#[derive(Drop)]
pub struct MemSink<F> {
    bytes: Vec<u8>,
    calls: F,
}

impl MemSink<Calls> {
    ghost use Rattle.outside_mem.specs.Sink.{sink_bytes};

    /// An empty sink. The writes with these numbers fail, from 0 on.
    pub fn new(alloc: Global, failing: &List<u64>) -> Mem<MemSink<Calls>>
        ensures value { IfOk result (λ sink. sink_bytes sink ≡ []) }
        ensures never { failing.now ≡ [] →
            IfOk result (λ sink. ⟦<MemSink<Calls> as Sink>⟧.never_fails sink ≡ true) }
    {
        let calls = Calls::new(alloc, failing)?;
        Ok(MemSink {
            bytes: Vec::new(alloc),
            calls,
        })
    }
}

impl MemSink<NoFailures> {
    ghost use Rattle.outside_mem.specs.Sink.{sink_bytes};

    /// An empty sink of which no write fails.
    pub fn without_failures(alloc: Global) -> MemSink<NoFailures>
        ensures value { sink_bytes result ≡ [] }
        ensures never { ⟦<MemSink<NoFailures> as Sink>⟧.never_fails result ≡ true }
    {
        MemSink {
            bytes: Vec::new(alloc),
            calls: NoFailures,
        }
    }
}

impl<F> MemSink<F> {
    ghost use Rattle.outside_mem.specs.Sink.{sink_bytes};

    /// What was written so far. Takes no memory.
    pub fn bytes(&self) -> &[u8]
        ensures { result.now ≡ sink_bytes self.now }
    {
        self.bytes.as_slice()
    }
}

impl<F: Failures> Sink for MemSink<F> {
    ghost use Rattle.std.specs.Prelude.{Some};

    ghost written = { λ sink. Some sink.bytes.items };

    ghost faults = { λ sink. F.count sink.calls };

    ghost never_fails = { λ sink. F.never_fails sink.calls };

    ghost no_faults = { λ sink. F.no_faults sink.calls };

    fn write(&mut self, bytes: &[u8]) -> Result<usize, DeviceFault> {
        if self.calls.next_fails() {
            return Err(DeviceFault::Failed);
        }
        match self.bytes.extend_from_slice(bytes) {
            Ok(()) => Ok(bytes.len()),
            Err(_) => Err(DeviceFault::Memory),
        }
    }
}
