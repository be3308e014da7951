// What is written of an answer, and the status then.
ghost use Rattle.std.specs.Prelude.{◌≡◌, ◌≤◌, ◌<◌, ◌⊎◌, IfOk};
ghost use Rattle.mvn_shared.specs.Cause.{HasRisen};
ghost use Rattle.call_plan.specs.Ending.{Ends, HasNone, IsFault, IsLow, IsWhole};
ghost use Rattle.mvn_call.specs.Promises.{Writes, written_by};

use build_core::{Answered, Event};
use build_outcome::{Call, FAULT, NO_MEMORY, Outcome};
use mvn_outside::{DeviceFault, Sink, write_all};
use mvn_shared::{List, Mem};

/// What a call leaves: the exit status, what comes back of all that was given, and of the run its events and the
/// answers of its goals, in order.
#[derive(Drop)]
pub struct Ended<D> {
    /// The exit status, 0 to 4.
    pub status: u8,
    /// All that was given, as the call left it.
    pub devices: D,
    /// The events of the run; none where nothing was built.
    pub trace: List<Event>,
    /// What the goals answered, one for each event `Answer` of the trace.
    pub answers: List<Answered>,
}

/// The status of a call once its answer is written. Costs writing its text.
pub fn write_answer<O: Sink>(out: &mut O, answer: Mem<Outcome>) -> u8
    requires status { IfOk answer (λ wanted. wanted.status ≤ 3) }
    ensures whole { IfOk answer (λ wanted. result < 3 →
        IsWhole wanted result (O.written out.old) (O.written out.new)) }
    ensures low { result < 3 → IsLow answer }
    ensures ends { IfOk answer (λ wanted.
        Ends wanted result (O.written out.old) (O.written out.new) (O.faults out.old)
        (O.faults out.new)) }
    ensures none { HasNone answer result (O.written out.old) (O.written out.new) }
    ensures fault { result ≡ 3 → IsFault answer ⊎ HasRisen (O.faults out.old) (O.faults out.new) }
    ensures quiet { result < 3 → O.faults out.new ≡ O.faults out.old }
    ensures bound { result ≤ 4 }
{
    match answer {
        Ok(outcome) => match write_all(out, outcome.text.as_slice()) {
            Ok(()) => outcome.status,
            Err(DeviceFault::Failed) => FAULT,
            Err(DeviceFault::Memory) => NO_MEMORY,
        },
        Err(_) => NO_MEMORY,
    }
}

/// Writes what a call answers, and gives its status: 3 where the sink failed, and 4 where memory ran out. Costs writing
/// the text. Project rule.
pub fn write<D, O: Sink>(call: Call<D>, out: &mut O) -> Ended<D>
    requires status { IfOk call.outcome (λ wanted. wanted.status ≤ 3) }
    ensures devices { result.devices ≡ call.devices }
    ensures trace { result.trace ≡ call.trace }
    ensures answers { result.answers ≡ call.answers }
    ensures writes { Writes call.outcome
        (written_by O.written O.faults result.status out.old out.new) }
{
    let Call {
        outcome,
        devices,
        trace,
        answers,
    } = call;
    let status = write_answer(out, outcome);
    Ended {
        status,
        devices,
        trace,
        answers,
    }
}
