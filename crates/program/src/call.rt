// From the words to the exit status.
ghost use Rattle.std.specs.Prelude.{◌≡◌, ◌≤◌, length, IfOk};

use generated::run_words;
use mvn_base::Machine;
use mvn_call::{Ended, FAULT, NO_MEMORY};
use mvn_devices::{Devices, Outside};
use mvn_outside::{DeviceFault, Sink};
use mvn_shared::{Bytes, Mem};
use real_devices::{named_devices, standard_output};
use std::alloc::Global;
use std::sync::Wait;
use std::thread::Threads;
use surroundings::{
    asks_for_help, asks_for_version, machine, variables, words, write_help, write_version,
};

// The exit status after the program has written one of its own texts.
fn status_of(written: Result<(), DeviceFault>) -> u8
    ensures { result ≤ 4 }
{
    match written {
        Ok(()) => 0,
        Err(DeviceFault::Failed) => FAULT,
        Err(DeviceFault::Memory) => NO_MEMORY,
    }
}

// Does what the words ask for over any devices, in threads that `threads` starts. The bound of the status is shown
// here, over any types.
#[tactic(auto, using(crate::proofs::Bound::words_bound))]
fn run_over<W: Threads + Wait + Sync, O: Outside, P: Sink>(
    threads: &W,
    alloc: Global,
    words: &[Bytes],
    machine: Machine,
    devices: Devices<O>,
    out: &mut P,
) -> Ended<Devices<O>>
    requires { length devices.hands.items ≡ 16 }
    ensures { result.status ≤ 4 }
{
    run_words(threads, alloc, words, machine, devices, out)
}

// Builds the project in the current folder, in threads that `threads` starts.
fn build<W: Threads + Wait + Sync, O: Sink>(
    rt: &HostRuntime,
    threads: &W,
    words: &[Bytes],
    out: &mut O,
) -> Mem<u8>
    ensures { IfOk result (λ status. status ≤ 4) }
{
    let variables = variables(rt, rt.alloc())?;
    let machine = machine(rt.alloc(), &variables)?;
    let devices = named_devices(rt, &variables)?;
    let ended = run_over(threads, rt.alloc(), words, machine, devices, out);
    Ok(ended.status)
}

// What the words ask for: the help, the version, or a build.
fn answer<W: Threads + Wait + Sync, O: Sink>(
    rt: &HostRuntime,
    threads: &W,
    words: &[Bytes],
    out: &mut O,
) -> Mem<u8>
    ensures { IfOk result (λ status. status ≤ 4) }
{
    if asks_for_help(words) {
        return Ok(status_of(write_help(out)));
    }
    if asks_for_version(words) {
        return Ok(status_of(write_version(out)));
    }
    build(rt, threads, words, out)
}

/// Does what the words of the command line ask for: prints the help or the version, or builds the project in the
/// current folder, in threads that `threads` starts. Gives the exit status, at most 4, or says that memory ran out. May
/// wait. Costs what the build costs. Project rule.
pub fn run<W: Threads + Wait + Sync>(rt: &HostRuntime, threads: &W) -> Mem<u8>
    ensures { IfOk result (λ status. status ≤ 4) }
{
    let words = words(rt, rt.alloc())?;
    let Some(out) = standard_output(rt) else {
        return Ok(FAULT);
    };
    let mut out = out;
    answer(rt, threads, &words, &mut out)
}
