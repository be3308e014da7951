// The pieces of a staging area, by number.
ghost use Rattle.std.specs.Prelude.{◌≡◌, ◌++◌, ℕ, if◌then◌else◌, slice_get, Some, IfOk, OnOk, OnErr};
ghost use Rattle.std.specs.Option.{option_map};
ghost use Rattle.std.specs.Ordering.{nat_cmp};
ghost use Rattle.std.specs.BTreeMap.{get, is_at};
ghost use Rattle.outside_mem.specs.Pieces.{with_bytes, sealed_piece, leftover};

use mvn_shared::{Bytes, List, Mem};
use std::alloc::Global;
use std::collections::BTreeMap;

/// A piece: its bytes so far, and whether it is sealed.
#[derive(Drop)]
pub struct Piece {
    pub sealed: bool,
    pub bytes: Bytes,
}

// Adds bytes to a piece, in place.
pub(crate) fn extend_at(pieces: &mut BTreeMap<u64, Piece>, number: u64, more: &[u8]) -> Mem<()>
    ensures ok { OnOk result ((q : ℕ) → get nat_cmp pieces.new q
        ≡ (if is_at (nat_cmp number) q then option_map (with_bytes more.now)
        (get nat_cmp pieces.old number)
        else get nat_cmp pieces.old q)) }
    ensures sealed { (q : ℕ) →
        option_map (λ p. p.sealed) (get nat_cmp pieces.new q)
        ≡ option_map (λ p. p.sealed) (get nat_cmp pieces.old q) }
    ensures err { OnErr result ((q : ℕ) → get nat_cmp pieces.new q ≡ get nat_cmp pieces.old q) }
{
    if let Some(piece) = pieces.get_mut(&number) {
        piece.bytes.extend_from_slice(more)?;
    }
    Ok(())
}

// Seals a piece, in place.
pub(crate) fn seal_at(pieces: &mut BTreeMap<u64, Piece>, number: u64)
    ensures sealed { (q : ℕ) → get nat_cmp pieces.new q
        ≡ (if is_at (nat_cmp number) q then option_map sealed_piece (get nat_cmp pieces.old number)
        else get nat_cmp pieces.old q) }
    ensures bytes { (q : ℕ) →
        option_map (λ p. p.bytes) (get nat_cmp pieces.new q)
        ≡ option_map (λ p. p.bytes) (get nat_cmp pieces.old q) }
{
    if let Some(piece) = pieces.get_mut(&number) {
        piece.sealed = true;
    }
}

// Puts a sealed piece of these bytes at a number.
fn put_leftover(pieces: &mut BTreeMap<u64, Piece>, number: u64, bytes: Bytes) -> Mem<()>
    ensures { OnOk result ((n : ℕ) → get nat_cmp pieces.new n
        ≡ (if is_at (nat_cmp number) n then Some (leftover bytes) else get nat_cmp pieces.old n)) }
{
    let piece = Piece {
        sealed: true,
        bytes,
    };
    pieces.insert(number, piece)?;
    Ok(())
}

// A sealed piece of each of these bytes, numbered from 0 on.
#[tactic(auto, using(crate::proofs::Leftovers::one_piece, crate::proofs::Leftovers::first_of_rest, crate::proofs::Leftovers::rest_after, crate::proofs::Leftovers::all_made))]
pub(crate) fn leftover_pieces(alloc: Global, list: List<Bytes>) -> Mem<BTreeMap<u64, Piece>>
    ensures { IfOk result (λ pieces. (n : ℕ) →
        get nat_cmp pieces n ≡ option_map leftover (slice_get list n)) }
{
    let mut pieces = BTreeMap::new(alloc);
    let count = list.len();
    let mut items = list.into_vec().into_iter();
    for number in 0..count {
        let Some(bytes) = items.next() else {
            return Ok(pieces);
        };
        put_leftover(&mut pieces, number as u64, bytes)?;
    }
    Ok(pieces)
}
