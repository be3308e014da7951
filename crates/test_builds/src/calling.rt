// A call of `mvn` over objects in memory.
ghost use Rattle.std.specs.Prelude.{◌≤◌, length};

use mvn_base::Machine;
use mvn_call::{Ended, mvn};
use mvn_devices::Devices;
use mvn_shared::{Bytes, List, Mem, OutOfMemory, Text};
use outside_mem::{Calls, Failures, MemRemote, MemShelf, MemSink, MemTree, NoFailures};
use std::alloc::Global;
use std::mem::replace;
use std::sync::Wait;
use std::thread::Threads;
use test_projects::{Project, WaitingGate, WaitingRemote, Worker};

// The types of what a call works with.
type Made<'a, F> = (
    MemTree<NoFailures>,
    MemShelf<F>,
    WaitingRemote<'a, MemRemote<Calls>>,
    WaitingGate<'a, Calls>,
);

fn no_text(alloc: Global) -> Text {
    Text::of(String::new(alloc))
}

// A machine of which these alone may be known.
fn machine_of(alloc: Global, root: Text, jdk: Text, os_name: Text, os_family: Text) -> Machine {
    Machine {
        root,
        env: List::new(alloc),
        system: List::new(alloc),
        jdk,
        os_name,
        os_family,
        os_arch: no_text(alloc),
        os_version: no_text(alloc),
    }
}

// A machine of which the folder of the project alone is known, whose name is taken out.
fn machine(alloc: Global, root: &mut Text) -> Machine {
    let root = replace(root, no_text(alloc));
    machine_of(alloc, root, no_text(alloc), no_text(alloc), no_text(alloc))
}

// The call over these objects, which writes its report to the sink.
fn call<'a, W: Threads + Wait + Sync, F: Failures + Send + Drop>(
    rt: &W,
    alloc: Global,
    words: &[Bytes],
    machine: Machine,
    devices: Devices<Made<'a, F>>,
    sink: &mut MemSink<NoFailures>,
) -> Ended<Devices<Made<'a, F>>>
    requires { (1 ≤ length devices.hands.items) × (length devices.hands.items ≤ 16) }
{
    mvn(rt, alloc, words, machine, devices, sink)
}

// What a call left, with the repository alone; the hands are put back.
fn put_back<'a, F: Failures + Send + Drop>(
    ended: Ended<Devices<Made<'a, F>>>,
    hands: &mut Vec<Worker<'a, F>>,
) -> Ended<MemShelf<F>> {
    let Ended {
        status,
        devices,
        trace,
        answers,
    } = ended;
    let Devices {
        shelf,
        hands: left,
        ..
    } = devices;
    *hands = left;
    Ended {
        status,
        devices: shelf,
        trace,
        answers,
    }
}

// The call over a project's folder and a repository, with hands that are taken and put back; it fails as for want of
// memory where they are too many or none.
fn called<'a, W: Threads + Wait + Sync, F: Failures + Send + Drop>(
    rt: &W,
    alloc: Global,
    words: &[Bytes],
    machine: Machine,
    tree: MemTree<NoFailures>,
    shelf: MemShelf<F>,
    hands: &mut Vec<Worker<'a, F>>,
    sink: &mut MemSink<NoFailures>,
) -> Mem<Ended<MemShelf<F>>> {
    if hands.is_empty() || hands.len() > 16 {
        return Err(OutOfMemory);
    }
    let taken = replace(hands, Vec::new(alloc));
    let devices = Devices {
        tree,
        shelf,
        hands: taken,
    };
    Ok(put_back(call(rt, alloc, words, machine, devices, sink), hands))
}

fn tree_of(alloc: Global, project: &Project) -> Mem<MemTree<NoFailures>> {
    MemTree::without_failures(alloc, project.tree.clone()?)
}

/// The call over a project, whose folder counts as `/w`; it writes its report to the sink. The repository is taken out;
/// it fails as for want of memory where none is there. There are 1 to 16 hands.
pub(crate) fn called_over<'a, W: Threads + Wait + Sync, F: Failures + Send + Drop>(
    rt: &W,
    alloc: Global,
    project: &Project,
    words: &[Bytes],
    shelf: &mut Option<MemShelf<F>>,
    hands: &mut Vec<Worker<'a, F>>,
    sink: &mut MemSink<NoFailures>,
) -> Mem<Ended<MemShelf<F>>> {
    let mut root = Text::from_str(alloc, "/w")?;
    let tree = tree_of(alloc, project)?;
    let machine = machine(alloc, &mut root);
    match shelf.take() {
        Some(shelf) => called(rt, alloc, words, machine, tree, shelf, hands, sink),
        None => Err(OutOfMemory),
    }
}
