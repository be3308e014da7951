// The outputs that a module keeps while its goals run.
ghost use Rattle.std.specs.Prelude.{◌≡◌, find, ◌==◌, IfOk};
ghost use Rattle.std.specs.Option.{option_map};
ghost use Rattle.build_core.specs.Slots.{slot_number, put_slot, slot_bytes};

use goal_types::{OwnBytes, Slot};
use mvn_shared::{Bytes, List, Mem};
use std::alloc::Global;

// A slot's place in the order of slots.
fn slot_number(slot: Slot) -> u8
    ensures { result ≡ slot_number slot }
{
    slot as u8
}

/// The outputs with these bytes in the slot, in place of any that were there. Costs a look at each output, and copies no
/// bytes. Project rule.
pub fn with_output(
    alloc: Global,
    own: List<OwnBytes>,
    slot: Slot,
    bytes: Bytes,
) -> Mem<List<OwnBytes>>
    ensures { IfOk result (λ kept. kept ≡ put_slot slot bytes own) }
{
    let mut below = Vec::new(alloc);
    let mut above = Vec::new(alloc);
    for output in own.into_vec() {
        if slot_number(output.slot) < slot_number(slot) {
            below.push(output)?;
        } else if slot_number(slot) < slot_number(output.slot) {
            above.push(output)?;
        }
    }
    below.push(OwnBytes { slot, bytes })?;
    below.append(&mut above)?;
    Ok(List::of(below))
}

// The first output in the slot.
fn output_in(own: &[OwnBytes], slot: Slot) -> Option<&OwnBytes>
    ensures { option_map (λ o. o.now) result
        ≡ find (λ o. slot_number o.slot == slot_number slot) own.now }
{
    for output in own {
        if slot_number(output.slot) == slot_number(slot) {
            return Some(output);
        }
    }
    None
}

/// The bytes in a slot. Costs a look at each output. Project rule.
pub fn bytes_in(own: &[OwnBytes], slot: Slot) -> Option<&[u8]>
    ensures { option_map (λ bytes. bytes.now) result ≡ slot_bytes own.now slot }
{
    match output_in(own, slot) {
        Some(output) => Some(output.bytes.as_slice()),
        None => None,
    }
}
