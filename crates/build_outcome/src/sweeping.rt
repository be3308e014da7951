// The areas of all hands are swept.
ghost use Rattle.std.specs.Prelude.{◌≡◌, length, map, IfErr, OnOk};
ghost use Rattle.mvn_shared.specs.Cause.{HasRisen};
ghost use Rattle.mvn_outside.specs.declared.fault.DeviceFault.TheVariants.{Failed};
ghost use Rattle.build_outcome.specs.Finished.{AreSwept, swept};
ghost use Rattle.build_outcome.specs.Left.{AreaFailed, TellAsBefore};

use crew_turns::Worker;
use mvn_outside::{Area, DeviceFault, Gate, Hand, Remote, sweep};

// Sweeps the area of a hand.
fn sweep_hand<R: Remote, A: Area, G: Gate>(hand: &mut Hand<R, A, G>) -> Result<(), DeviceFault>
    ensures ok { OnOk result
        (⟦<Hand<R, A, G> as Worker>⟧.state hand.new
        ≡ swept (⟦<Hand<R, A, G> as Worker>⟧.state hand.old)) }
    ensures same { (⟦<Hand<R, A, G> as Worker>⟧.state hand.new).told
        ≡ (⟦<Hand<R, A, G> as Worker>⟧.state hand.old).told }
    ensures err { IfErr result (λ fault. fault ≡ Failed
        → HasRisen (A.faults hand.old.area) (A.faults hand.new.area)) }
{
    sweep(&mut hand.area)
}

// Sweeps the areas of all hands, one after another; stops at the first that fails, whose count rose. The hands tell
// what they told.
pub(crate) fn sweep_all<R: Remote, A: Area, G: Gate>(
    hands: &mut [Hand<R, A, G>],
) -> Result<(), DeviceFault>
    ensures ok { OnOk result (AreSwept
        (map ⟦<Hand<R, A, G> as Worker>⟧.state hands.old)
        (map ⟦<Hand<R, A, G> as Worker>⟧.state hands.new)) }
    ensures same { TellAsBefore
        (map ⟦<Hand<R, A, G> as Worker>⟧.state hands.old)
        (map ⟦<Hand<R, A, G> as Worker>⟧.state hands.new) }
    ensures err { IfErr result (λ fault. fault ≡ Failed → AreaFailed
        (map ⟦<Hand<R, A, G> as Worker>⟧.state hands.old)
        (map ⟦<Hand<R, A, G> as Worker>⟧.state hands.new)) }
{
    let mut at = 0;
    while at < hands.len() {
        match sweep_hand(&mut hands[at]) {
            Ok(()) => {}
            Err(fault) => return Err(fault),
        }
        at += 1;
    }
    Ok(())
}
