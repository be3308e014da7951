// The goal program over streams in memory.
use crate::calls;
use child_mem::MemSource;
use goal_program::goal_main;
use mvn_shared::{Bytes, List, Mem};
use outside_mem::{Calls, MemSink};
use row_fields::unescaped;
use std::alloc::Global;

// A status, and what was written.
fn told(alloc: Global, status: u8, written: &[u8]) -> Mem<Bytes> {
    let status = format!(in alloc; "{status} ")?;
    let mut shown = Bytes::from_slice(alloc, status.as_bytes())?;
    shown.extend_from_slice(written)?;
    Ok(shown)
}

// How the program ends with what a source gives where these writes fail, and what it writes.
fn ended(alloc: Global, source: &mut MemSource<Calls>, writes: &List<u64>) -> Mem<Bytes> {
    let mut sink = MemSink::new(alloc, writes)?;
    let status = goal_main(alloc, source, &mut sink);
    told(alloc, status, sink.bytes())
}

// How the program ends with the bytes of a field where these reads and writes fail, and what it writes.
fn given(alloc: Global, field: &str, reads: &List<u64>, writes: &List<u64>) -> Mem<Bytes> {
    let input = unescaped(alloc, field)?;
    let mut source = MemSource::new(alloc, input, reads)?;
    ended(alloc, &mut source, writes)
}

/// How the program ends with these bytes, and what it writes.
pub(crate) fn run(alloc: Global, field: &str) -> Mem<Bytes> {
    given(alloc, field, &List::new(alloc), &List::new(alloc))
}

/// How the program ends with the bytes of a field where a read fails, and what it writes.
pub(crate) fn failing_read(alloc: Global, fields: &str) -> Mem<Bytes> {
    let (call, field) = fields.split_once(' ').unwrap_or((fields, ""));
    let reads = calls(alloc, call)?;
    given(alloc, field, &reads, &List::new(alloc))
}

/// How the program ends with the bytes of a field where a write fails, and what it writes.
pub(crate) fn failing_write(alloc: Global, fields: &str) -> Mem<Bytes> {
    let (call, field) = fields.split_once(' ').unwrap_or((fields, ""));
    let writes = calls(alloc, call)?;
    given(alloc, field, &List::new(alloc), &writes)
}
