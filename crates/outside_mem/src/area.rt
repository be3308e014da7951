//! The staging area, as numbered pieces.

ghost use Rattle.std.specs.Prelude.{◌≡◌, ℕ, [], Some, true, length, slice_get, IfOk};
ghost use Rattle.std.specs.Option.{option_map};
ghost use Rattle.std.specs.FinMap as map;

use crate::calls::{Calls, Failures, NoFailures};
use crate::pieces::{Piece, extend_at, leftover_pieces, seal_at};
use mvn_outside::{Area, DeviceFault};
use mvn_shared::{Bytes, List, Mem};
use std::alloc::Global;
use std::collections::BTreeMap;

/// A staging area in memory. It tells its pieces and their bytes.
#[derive(Drop)]
pub struct MemArea<F> {
    alloc: Global,
    pieces: BTreeMap<u64, Piece>,
    next: u64,
    calls: F,
}

impl MemArea<Calls> {
    ghost use Rattle.outside_mem.specs.Area.{area_pieces, area_sealed, area_contents};

    /// An area without pieces. The calls with the numbers fail, from 0 on.
    pub fn new(alloc: Global, failing: &List<u64>) -> Mem<MemArea<Calls>>
        ensures value { IfOk result (λ area. area_pieces area ≡ []) }
        ensures never { failing.now ≡ [] →
            IfOk result (λ area. ⟦<MemArea<Calls> as Area>⟧.never_fails area ≡ true) }
    {
        let calls = Calls::new(alloc, failing)?;
        Ok(MemArea {
            alloc,
            pieces: BTreeMap::new(alloc),
            next: 0,
            calls,
        })
    }

    /// An area that a stopped run has left: a sealed piece of each of these bytes, numbered from 0 on. The calls with the
    /// numbers fail, from 0 on. Costs n log n.
    #[tactic(auto, using(crate::proofs::Leftovers::sealed_leftovers, crate::proofs::Leftovers::bytes_leftovers))]
    pub fn with_pieces(
        alloc: Global,
        pieces: List<Bytes>,
        failing: &List<u64>,
    ) -> Mem<MemArea<Calls>>
        ensures sealed { IfOk result (λ area. (n : ℕ) →
            map.get (area_sealed area) n ≡ option_map (λ bytes. true) (slice_get pieces n)) }
        ensures bytes { IfOk result (λ area. (n : ℕ) →
            map.get (area_contents area) n ≡ slice_get pieces n) }
        ensures never { failing.now ≡ [] →
            IfOk result (λ area. ⟦<MemArea<Calls> as Area>⟧.never_fails area ≡ true) }
    {
        let calls = Calls::new(alloc, failing)?;
        let next = pieces.len() as u64;
        let pieces = leftover_pieces(alloc, pieces)?;
        Ok(MemArea {
            alloc,
            pieces,
            next,
            calls,
        })
    }
}

impl MemArea<NoFailures> {
    ghost use Rattle.outside_mem.specs.Area.{area_pieces};

    /// An area without pieces. No call fails.
    pub fn without_failures(alloc: Global) -> MemArea<NoFailures>
        ensures value { area_pieces result ≡ [] }
        ensures never { ⟦<MemArea<NoFailures> as Area>⟧.never_fails result ≡ true }
    {
        MemArea {
            alloc,
            pieces: BTreeMap::new(alloc),
            next: 0,
            calls: NoFailures,
        }
    }
}

impl<F> MemArea<F> {
    ghost use Rattle.outside_mem.specs.Area.{area_pieces, area_sealed, area_contents, area_calls};

    /// The number of pieces that are there. Takes no memory.
    pub fn pieces(&self) -> u64
        ensures { result ≡ length (area_pieces self.now) }
    {
        self.pieces.len() as u64
    }

    // A copy of the bytes of a sealed piece.
    pub(crate) fn copy_of(&self, piece: u64) -> Mem<Bytes>
        requires { map.get (area_sealed self.now) piece ≡ Some true }
        ensures { IfOk result (λ copy. map.get (area_contents self.now) piece ≡ Some copy) }
    {
        match self.pieces.get(&piece) {
            Some(found) => Ok(found.bytes.clone()?),
            None => Ok(Bytes::of(Vec::new(self.alloc))),
        }
    }

    // Takes a piece away.
    pub(crate) fn take(&mut self, piece: u64)
        ensures sealed { area_sealed self.new ≡ map.remove (area_sealed self.old) piece }
        ensures contents { area_contents self.new ≡ map.remove (area_contents self.old) piece }
        ensures calls { area_calls self.new ≡ area_calls self.old }
    {
        self.pieces.remove(&piece);
    }
}

impl<F: Failures> Area for MemArea<F> {
    ghost use Rattle.std.specs.Prelude.{Some};
    ghost use Rattle.outside_mem.specs.Pieces.{sealed_of, bytes_of};

    ghost pieces = { λ area. sealed_of area.pieces.entries };

    ghost contents = { λ area. Some (bytes_of area.pieces.entries) };

    ghost faults = { λ area. F.count area.calls };

    ghost never_fails = { λ area. F.never_fails area.calls };

    ghost no_faults = { λ area. F.no_faults area.calls };

    // A number is given once; the last of them never.
    fn begin(&mut self) -> Result<u64, DeviceFault> {
        if self.calls.next_fails() {
            return Err(DeviceFault::Failed);
        }
        let piece = self.next;
        if piece == u64::MAX || self.pieces.contains_key(&piece) {
            return Err(DeviceFault::Memory);
        }
        let empty = Piece {
            sealed: false,
            bytes: Bytes::of(Vec::new(self.alloc)),
        };
        match self.pieces.insert(piece, empty) {
            Ok(_) => {
                self.next = piece + 1;
                Ok(piece)
            }
            Err(_) => Err(DeviceFault::Memory),
        }
    }

    fn append(&mut self, piece: u64, bytes: &[u8]) -> Result<usize, DeviceFault> {
        if self.calls.next_fails() {
            return Err(DeviceFault::Failed);
        }
        extend_at(&mut self.pieces, piece, bytes)?;
        Ok(bytes.len())
    }

    fn seal(&mut self, piece: u64) -> Result<(), DeviceFault> {
        if self.calls.next_fails() {
            return Err(DeviceFault::Failed);
        }
        seal_at(&mut self.pieces, piece);
        Ok(())
    }

    fn discard(&mut self, piece: u64) -> Result<(), DeviceFault> {
        if self.calls.next_fails() {
            return Err(DeviceFault::Failed);
        }
        self.take(piece);
        Ok(())
    }

    fn sweep(&mut self) -> Result<(), DeviceFault> {
        if self.calls.next_fails() {
            return Err(DeviceFault::Failed);
        }
        self.pieces.clear();
        Ok(())
    }
}
