// Runs words that may ask for a generated project.
ghost use Rattle.std.specs.Prelude.{◌≡◌, ◌≤◌, length, Ok};
ghost use Rattle.call_plan.specs.Commands.{asked};
ghost use Rattle.call_plan.specs.Seen.{After, OthersStay, Seen};
ghost use Rattle.generated.specs.Whole.{IsGeneratedCall, IsLineCall, IsWordsCall};
ghost use Rattle.mvn_call.specs.Promises.{written_by};

use crate::run::build_generated;
use call_plan::{Sees, asked};
use cli_words::CommandLine;
use mvn_base::Machine;
use mvn_call::{Ended, NO_MEMORY, mvn_asked, write_answer};
use mvn_devices::{Devices, Outside};
use mvn_outside::Sink;
use mvn_shared::{Bytes, List};
use std::alloc::Global;
use std::sync::Wait;
use std::thread::Threads;

// Builds the generated project of so many POMs, and writes the summary.
fn write_generated<W: Threads + Wait + Sync, D, P: Sink>(
    rt: &W,
    alloc: Global,
    poms: u32,
    line: &CommandLine,
    machine: Machine,
    devices: D,
    out: &mut P,
) -> Ended<D>
    requires workers { (1 ≤ line.now.workers) × (line.now.workers ≤ 16) }
    ensures devices { result.devices ≡ devices }
    ensures call { (seen : Seen) (after : After) → seen.machine ≡ machine
        → after.faults ≡ seen.faults → after.outside ≡ seen.outside
        → IsGeneratedCall poms line.now seen after result.trace result.answers
        (written_by P.written P.faults result.status out.old out.new) }
{
    let call = build_generated(rt, alloc, poms, line, machine);
    let status = write_answer(out, call.outcome);
    Ended {
        status,
        devices,
        trace: call.trace,
        answers: call.answers,
    }
}

// Does what a line asks for, as `run_words` does.
fn run_line<W: Threads + Wait + Sync, O: Outside, P: Sink>(
    rt: &W,
    alloc: Global,
    line: CommandLine,
    machine: Machine,
    devices: Devices<O>,
    out: &mut P,
) -> Ended<Devices<O>>
    requires hands { (1 ≤ length devices.hands.items) × (length devices.hands.items ≤ 16) }
    requires workers { (1 ≤ line.workers) × (line.workers ≤ length devices.hands.items) }
    ensures call { IsLineCall line.generated line (⟦<Devices<O> as Sees>⟧.seen devices machine)
        (⟦<Devices<O> as Sees>⟧.after result.devices) result.trace result.answers
        (written_by P.written P.faults result.status out.old out.new) }
    ensures hands { OthersStay (Ok line) devices.hands.items result.devices.hands.items }
{
    let generated = line.generated;
    match generated {
        Some(poms) => write_generated(rt, alloc, poms, &line, machine, devices, out),
        None => mvn_asked(rt, alloc, Ok(Ok(line)), machine, devices, out),
    }
}

/// Runs words as `mvn` does, unless they ask for a generated project: then that is built, over objects in memory and by
/// the built-in goals, the summary is written in place of the report, and of all that is given the sink alone is used.
/// May wait. Costs reading the words besides. Project rule.
pub fn run_words<W: Threads + Wait + Sync, O: Outside, P: Sink>(
    rt: &W,
    alloc: Global,
    words: &[Bytes],
    machine: Machine,
    devices: Devices<O>,
    out: &mut P,
) -> Ended<Devices<O>>
    requires some_hand { 1 ≤ length devices.hands.items }
    requires most_hands { length devices.hands.items ≤ 16 }
    ensures call { IsWordsCall (asked words.now (length devices.hands.items))
        (⟦<Devices<O> as Sees>⟧.seen devices machine) (⟦<Devices<O> as Sees>⟧.after result.devices)
        result.trace result.answers
        (written_by P.written P.faults result.status out.old out.new) }
    ensures hands { OthersStay (asked words.now (length devices.hands.items))
        devices.hands.items result.devices.hands.items }
{
    match asked(alloc, words, devices.hands.len() as u32) {
        Ok(Ok(line)) => run_line(rt, alloc, line, machine, devices, out),
        Ok(Err(outcome)) => mvn_asked(rt, alloc, Ok(Err(outcome)), machine, devices, out),
        Err(_) => Ended {
            status: NO_MEMORY,
            devices,
            trace: List::new(alloc),
            answers: List::new(alloc),
        },
    }
}
