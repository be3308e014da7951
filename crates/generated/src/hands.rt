// The hands that build the generated project.
ghost use Rattle.std.specs.Prelude.{◌≡◌, map, replicate, IfOk};
ghost use Rattle.outside_mem.specs.FilesNamed.{files_named};
ghost use Rattle.generated.specs.Made.{fresh_hand};
ghost use Rattle.generated.specs.States.{state};

use gates::Builtin;
use mvn_outside::Hand;
use mvn_shared::{List, Mem};
use outside_mem::{MemArea, MemFile, MemRemote, NoFailures};
use std::alloc::Global;

/// What one worker works with: a remote repository and a staging area in memory, and the built-in goals.
pub type MemHand = Hand<MemRemote<NoFailures>, MemArea<NoFailures>, Builtin>;

// A hand whose remote repository has these files.
fn made_hand(alloc: Global, files: &List<MemFile>) -> Mem<MemHand>
    ensures { IfOk result (λ hand. state hand ≡ fresh_hand (files_named files.now)) }
{
    let remote = MemRemote::without_failures(alloc, files.clone()?)?;
    let area = MemArea::without_failures(alloc);
    let gate = Builtin::new(alloc);
    Ok(Hand { remote, area, gate })
}

/// So many hands, each with a copy of the remote repository's files. Costs these.
pub fn made_hands(alloc: Global, files: &List<MemFile>, count: u32) -> Mem<Vec<MemHand>>
    ensures { IfOk result (λ hands.
        map state hands.items ≡ replicate count (fresh_hand (files_named files.now))) }
{
    let mut hands = Vec::new(alloc);
    for hand in 0..count {
        hands.push(made_hand(alloc, files)?)?;
    }
    Ok(hands)
}
