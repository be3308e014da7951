// One child that was started: it is given a request, its output is read, and it is gone.
ghost use Rattle.std.specs.Prelude.{◌≡◌, true, IfOk, IfSome, OnOk, OnErr};
ghost use Rattle.mvn_shared.specs.Cause.{HasCause};
ghost use Rattle.mvn_outside.specs.Faults.{device_failed};
ghost use Rattle.children.specs.Children.{is_there, without_child, changed, given_more, record_of};
ghost use Rattle.gates.specs.Answering.{child_answer};
ghost use Rattle.gates.specs.Asking.{Touches, handed, Exchanges, Asked};

use crate::meaning::{MOST_ANSWER, answer_of, long_answer};
use crate::reading::read_output;
use children::Spawner;
use goal_types::GoalAnswer;
use mvn_outside::DeviceFault;
use std::alloc::Global;

// Gives a child all of the bytes.
#[tactic(auto, using(crate::proofs::Steps::give_nothing, crate::proofs::Steps::touched_still))]
fn give_all<P: Spawner>(spawner: &mut P, child: u64, bytes: &[u8]) -> Result<(), DeviceFault>
    requires { is_there (P.children spawner.old) child ≡ true }
    ensures ok { OnOk result
        (P.told spawner.new ≡ changed (given_more bytes.now) child (P.told spawner.old)) }
    ensures err { OnErr result (Touches child (P.told spawner.old) (P.told spawner.new)) }
    ensures there { P.children spawner.new ≡ P.children spawner.old }
    ensures never { P.never_fails spawner.new ≡ P.never_fails spawner.old }
    ensures cause { HasCause (P.faults spawner.old) (P.faults spawner.new) (device_failed result) }
{
    let mut done = 0;
    while done < bytes.len() {
        done += spawner.write(child, &bytes[done..])?;
    }
    Ok(())
}

// Gives a child all of the bytes, and closes its input.
#[tactic(auto, using(crate::proofs::Steps::hand_step, crate::proofs::Steps::touched_still))]
fn hand_over<P: Spawner>(spawner: &mut P, child: u64, bytes: &[u8]) -> Result<(), DeviceFault>
    requires { is_there (P.children spawner.old) child ≡ true }
    ensures ok { OnOk result
        (P.told spawner.new ≡ changed (handed bytes.now) child (P.told spawner.old)) }
    ensures err { OnErr result (Touches child (P.told spawner.old) (P.told spawner.new)) }
    ensures there { P.children spawner.new ≡ P.children spawner.old }
    ensures never { P.never_fails spawner.new ≡ P.never_fails spawner.old }
    ensures cause { HasCause (P.faults spawner.old) (P.faults spawner.new) (device_failed result) }
{
    give_all(spawner, child, bytes)?;
    match spawner.close_input(child) {
        Ok(()) => Ok(()),
        Err(_) => Err(DeviceFault::Failed),
    }
}

// Gives a child its request, and reads what it writes.
#[tactic(auto, using(crate::proofs::Steps::exchanged, crate::proofs::Steps::touched_then))]
fn exchange<P: Spawner>(
    alloc: Global,
    spawner: &mut P,
    child: u64,
    bytes: &[u8],
) -> Result<Vec<u8>, DeviceFault>
    requires { is_there (P.children spawner.old) child ≡ true }
    ensures exchanges { IfOk result (λ output.
        Exchanges child (P.told spawner.old) (P.told spawner.new) bytes.now output.items) }
    ensures err { OnErr result (Touches child (P.told spawner.old) (P.told spawner.new)) }
    ensures there { P.children spawner.new ≡ P.children spawner.old }
    ensures never { P.never_fails spawner.new ≡ P.never_fails spawner.old }
    ensures cause { HasCause (P.faults spawner.old) (P.faults spawner.new) (device_failed result) }
{
    hand_over(spawner, child, bytes)?;
    match read_output(alloc, spawner, child) {
        Ok(output) => Ok(output),
        Err(fault) => Err(fault),
    }
}

// Ends with a child whose output was read: it is waited for, or given up where the output is too long.
#[tactic(auto, using(crate::proofs::Statuses::any_status))]
fn finish<P: Spawner>(
    alloc: Global,
    spawner: &mut P,
    child: u64,
    output: &[u8],
) -> Result<GoalAnswer, DeviceFault>
    requires { is_there (P.children spawner.old) child ≡ true }
    ensures answer { IfSome (record_of child (P.told spawner.old))
        (λ known. IfOk result (λ said. said ≡ child_answer output.now known.status)) }
    ensures gone { P.children spawner.new ≡ without_child (P.children spawner.old) child }
    ensures same { P.told spawner.new ≡ P.told spawner.old }
    ensures never { P.never_fails spawner.new ≡ P.never_fails spawner.old }
    ensures cause { HasCause (P.faults spawner.old) (P.faults spawner.new) (device_failed result) }
{
    if output.len() > MOST_ANSWER {
        spawner.drop_child(child);
        return Ok(long_answer(alloc, output)?);
    }
    match spawner.wait(child) {
        Ok(status) => Ok(answer_of(alloc, output, status)?),
        Err(_) => {
            spawner.drop_child(child);
            Err(DeviceFault::Failed)
        }
    }
}

/// Asks a child that was started: after it the child is gone, whatever came of it.
#[tactic(auto, using(crate::proofs::Steps::asked, crate::proofs::Steps::touched_same, crate::proofs::Steps::touched_still))]
pub(crate) fn ask<P: Spawner>(
    alloc: Global,
    spawner: &mut P,
    child: u64,
    bytes: &[u8],
) -> Result<GoalAnswer, DeviceFault>
    requires { is_there (P.children spawner.old) child ≡ true }
    ensures asked { IfOk result
        (λ said. Asked child (P.told spawner.old) (P.told spawner.new) bytes.now said) }
    ensures err { OnErr result (Touches child (P.told spawner.old) (P.told spawner.new)) }
    ensures gone { P.children spawner.new ≡ without_child (P.children spawner.old) child }
    ensures never { P.never_fails spawner.new ≡ P.never_fails spawner.old }
    ensures cause { HasCause (P.faults spawner.old) (P.faults spawner.new) (device_failed result) }
{
    match exchange(alloc, spawner, child, bytes) {
        Ok(output) => finish(alloc, spawner, child, &output),
        Err(fault) => {
            spawner.drop_child(child);
            Err(fault)
        }
    }
}
