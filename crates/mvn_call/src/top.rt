// The call of `mvn`, with all that it promises.
ghost use Rattle.std.specs.Prelude.{◌≡◌, ◌≤◌, ◌<◌, length, IfErr, IfOk, IfSome, Result};
ghost use Rattle.cli_words.specs.declared.command_line.CommandLine.{CommandLine};
ghost use Rattle.mvn_outside.specs.Shelf.{IsSettled};
ghost use Rattle.build_outcome.specs.declared.outcome.Outcome.{Outcome};
ghost use Rattle.build_outcome.specs.Left.{TellAsBefore};
ghost use Rattle.build_outcome.specs.Once.{PublishesOnce, StopsBetween};
ghost use Rattle.call_plan.specs.Commands.{asked};
ghost use Rattle.call_plan.specs.Headline.{IsHistory, IsUnchanged};
ghost use Rattle.call_plan.specs.Seen.{OthersStay};
ghost use Rattle.call_laws.specs.Numbered.{AreTheTraces};
ghost use Rattle.call_laws.specs.Reruns.{LeavesBehind};
ghost use Rattle.mvn_call.specs.Promises.{AllWorked, AreasEmpty, BuildsAgain, BuildsAsOne, IsMvn, Says, SomeBroke, WritesWanted, written_by};

use crate::build::run;
use crate::ending::{Ended, write};
use build_outcome::Outcome;
use call_plan::{Sees, asked};
use cli_words::CommandLine;
use mvn_base::Machine;
use mvn_devices::{Devices, Outside};
use mvn_outside::Sink;
use mvn_shared::{Bytes, Mem};
use std::alloc::Global;
use std::sync::Wait;
use std::thread::Threads;

/// Does what was asked for, as `mvn` does what its words ask for. `answer` is what `call_plan::asked` gave, and for
/// each line or outcome that it says all holds that `mvn` promises. May wait. Costs what planning, building and writing
/// cost. Project rule.
pub fn mvn_asked<W: Threads + Wait + Sync, O: Outside, P: Sink>(
    rt: &W,
    alloc: Global,
    answer: Mem<Result<CommandLine, Outcome>>,
    machine: Machine,
    devices: Devices<O>,
    out: &mut P,
) -> Ended<Devices<O>>
    requires hands { (1 ≤ length devices.hands.items) × (length devices.hands.items ≤ 16) }
    requires workers { IfOk answer (λ said. IfOk said (λ line.
        (1 ≤ line.workers) × (line.workers ≤ length devices.hands.items))) }
    requires words { IfOk answer (λ said. IfErr said (λ outcome. outcome.status ≡ 2)) }
    ensures call { (said : Result CommandLine Outcome) → Says answer said → IsMvn said
        (⟦<Devices<O> as Sees>⟧.seen devices machine) (⟦<Devices<O> as Sees>⟧.after result.devices)
        result.trace result.answers
        (written_by P.written P.faults result.status out.old out.new) }
    ensures hands { (said : Result CommandLine Outcome) → Says answer said
        → OthersStay said devices.hands.items result.devices.hands.items }
{
    let call = run(rt, alloc, answer, machine, devices);
    write(call, out)
}

/// Builds the project in `devices.tree` as the words say, writes the report or one line to `out`, and answers the exit
/// status: 0 if all modules are built, 1 if one isn't, 2 if the words or the project are refused, 3 after a fault of a
/// device, 4 if memory ran out. The words are a phase and options, selectors of modules and a number of workers among
/// them.
///
/// As many hands as the words ask for workers build, from the first one on, each in a thread of its own as far as
/// threads can be had; a module is built once those that it stands on are; those that stand on one that failed are
/// skipped. Files that aren't in the repository are fetched from a hand's remote. The area of each such hand is swept
/// first of all calls to it. What was published is settled once, before the report is written. Guide to Working with
/// Multiple Modules; Introduction to the Dependency Mechanism; project rule.
///
/// POMs that a model needs are looked up in the project's folder, in the repository, and in the first hand's remote.
/// May wait. Costs what planning, fetching, the goals and publishing cost, and memory for the plan with the sources of
/// all modules that are built, for their outputs, for the trace, and for the report.
pub fn mvn<W: Threads + Wait + Sync, O: Outside, P: Sink>(
    rt: &W,
    alloc: Global,
    words: &[Bytes],
    machine: Machine,
    devices: Devices<O>,
    out: &mut P,
) -> Ended<Devices<O>>
    requires some_hand { 1 ≤ length devices.hands.items }
    requires most_hands { length devices.hands.items ≤ 16 }
    // Below 3, where all tells, the outcome is that of the build by one hand.
    ensures outcome { BuildsAsOne (asked words.now (length devices.hands.items))
        (⟦<Devices<O> as Sees>⟧.seen devices machine) (⟦<Devices<O> as Sees>⟧.after result.devices)
        result.answers (written_by P.written P.faults result.status out.old out.new) }
    // Made again, over files that an earlier call or a stop in it left, it has the outcome of that one.
    ensures again { BuildsAgain (asked words.now (length devices.hands.items))
        (⟦<Devices<O> as Sees>⟧.seen devices machine) (⟦<Devices<O> as Sees>⟧.after result.devices)
        result.answers (written_by P.written P.faults result.status out.old out.new) }
    // At every status a call leaves such files, where they tell, and so does a stop in it.
    ensures remains { LeavesBehind (asked words.now (length devices.hands.items))
        (⟦<Devices<O> as Sees>⟧.seen devices machine)
        (O.Shelf.told result.devices.shelf) result.answers }
    // Over any objects nothing was done, or a complete run of a plan of the line, by the hands that are used.
    ensures history { IsHistory (asked words.now (length devices.hands.items))
        (⟦<Devices<O> as Sees>⟧.seen devices machine) (⟦<Devices<O> as Sees>⟧.after result.devices)
        result.trace result.answers }
    // The answers are one for each event `Answer` of the trace, in order, and no goal is answered twice.
    ensures answers { AreTheTraces result.trace result.answers }
    // What is written is a part from the front of the text that is wanted, which has its causes.
    ensures causes { WritesWanted (asked words.now (length devices.hands.items))
        (⟦<Devices<O> as Sees>⟧.seen devices machine) (⟦<Devices<O> as Sees>⟧.after result.devices)
        result.trace result.answers
        (written_by P.written P.faults result.status out.old out.new) }
    // Words or a project that are refused leave all as it was, and nothing is done.
    ensures refused { result.status ≡ 2 → IsUnchanged (⟦<Devices<O> as Sees>⟧.seen devices machine)
        (⟦<Devices<O> as Sees>⟧.after result.devices) result.trace result.answers }
    // Each name is published at most once; at every moment, and after a stop, it has its old value or its new one.
    ensures once { PublishesOnce (O.Shelf.told devices.shelf) (O.Shelf.told result.devices.shelf) }
    ensures whole_files { StopsBetween (O.Shelf.told devices.shelf)
        (O.Shelf.told result.devices.shelf) }
    // With 0 and 1 all that was published is settled, and no area that was used has a piece left.
    ensures settled { result.status < 2 → IfSome (O.Shelf.told result.devices.shelf) IsSettled }
    ensures areas { result.status < 2 → AreasEmpty (asked words.now (length devices.hands.items))
        (⟦<Devices<O> as Sees>⟧.after result.devices) }
    // Below 3 no device failed, and at 3 one did.
    ensures quiet { result.status < 3 → AllWorked (asked words.now (length devices.hands.items))
        (⟦<Devices<O> as Sees>⟧.seen devices machine) (⟦<Devices<O> as Sees>⟧.after result.devices)
        (written_by P.written P.faults result.status out.old out.new) }
    ensures fault { result.status ≡ 3 → SomeBroke (asked words.now (length devices.hands.items))
        (⟦<Devices<O> as Sees>⟧.seen devices machine) (⟦<Devices<O> as Sees>⟧.after result.devices)
        (written_by P.written P.faults result.status out.old out.new) }
    ensures bound { result.status ≤ 4 }
    // The hands tell what they told, and those that aren't used are as they were.
    ensures tells { TellAsBefore (⟦<Devices<O> as Sees>⟧.seen devices machine).outside.hands
        (⟦<Devices<O> as Sees>⟧.after result.devices).outside.hands }
    ensures hands { OthersStay (asked words.now (length devices.hands.items))
        devices.hands.items result.devices.hands.items }
{
    let answer = asked(alloc, words, devices.hands.len() as u32);
    mvn_asked(rt, alloc, answer, machine, devices, out)
}
