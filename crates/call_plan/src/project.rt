// Plans the project of a call.
ghost use Rattle.std.specs.Prelude.{◌≡◌, ◌≤◌, None, drop, length, IfOk};
ghost use Rattle.model_resolver.specs.Devices.{Counted};
ghost use Rattle.call_plan.specs.Project.{GivesFrom, GivesPlan};
ghost use Rattle.call_plan.specs.Seen.{AsksFirst};

use crate::devices::Sees;
use crate::outcome::answered;
use build_outcome::Outcome;
use build_plan::{Planning, plan_build};
use cli_words::CommandLine;
use crew_turns::Worker;
use module_plan::Planned;
use mvn_devices::{Devices, Outside};
use mvn_outside::{Gate, Hand, Remote, Shelf, Tree};
use mvn_shared::Mem;
use pom_source::Given;
use std::alloc::Global;

// Plans the project for a line.
#[tactic(auto, using(crate::proofs::Planned::gives_plan))]
fn plan_line<T: Tree, S: Shelf, R: Remote>(
    alloc: Global,
    given: &Given,
    line: &CommandLine,
    tree: &mut T,
    shelf: &mut S,
    remote: &mut R,
) -> Planning<Mem<Result<Planned, Outcome>>>
    requires workers { (1 ≤ line.now.workers) × (line.now.workers ≤ 16) }
    ensures gives { IfOk result.answer (GivesPlan (T.files tree.old) (S.told shelf.old)
        (R.files remote.old) given.now line.now result.failed) }
    ensures tree { T.files tree.new ≡ T.files tree.old }
    ensures shelf { S.told shelf.new ≡ S.told shelf.old }
    ensures remote { R.files remote.new ≡ R.files remote.old }
    ensures counted { Counted None result.failed
        (record {
          tree = T.faults tree.old;
          shelf = S.faults shelf.old;
          remote = R.faults remote.old;
        })
        (record {
          tree = T.faults tree.new;
          shelf = S.faults shelf.new;
          remote = R.faults remote.new;
        }) }
{
    let planning = plan_build(alloc, tree, shelf, remote, given, line);
    let failed = planning.failed;
    let answer = answered(alloc, planning);
    Planning { answer, failed }
}

// Plans the project for a line with the remote of a hand, of which nothing else is used.
fn plan_by_hand<T: Tree, R: Remote, S: Shelf, G: Gate>(
    alloc: Global,
    given: &Given,
    line: &CommandLine,
    tree: &mut T,
    shelf: &mut S,
    hand: &mut Hand<R, S::Area, G>,
) -> Planning<Mem<Result<Planned, Outcome>>>
    requires workers { (1 ≤ line.now.workers) × (line.now.workers ≤ 16) }
    ensures gives { IfOk result.answer (GivesPlan (T.files tree.old) (S.told shelf.old)
        (R.files hand.old.remote) given.now line.now result.failed) }
    ensures shelf { S.told shelf.new ≡ S.told shelf.old }
    ensures counted { Counted None result.failed
        (record {
          tree = T.faults tree.old;
          shelf = S.faults shelf.old;
          remote = R.faults hand.old.remote;
        })
        (record {
          tree = T.faults tree.new;
          shelf = S.faults shelf.new;
          remote = R.faults hand.new.remote;
        }) }
    ensures state { ⟦<Hand<R, S::Area, G> as Worker>⟧.state hand.new
        ≡ record (⟦<Hand<R, S::Area, G> as Worker>⟧.state hand.old)
        { remote = R.faults hand.new.remote } }
{
    plan_line(alloc, given, line, tree, shelf, &mut hand.remote)
}

/// Plans the project for a line: POMs are looked up in the first hand's remote too. Gives the plan, or what is answered
/// in its place: a refusal, or the line of the device that failed first, which `failed` names. Costs what planning
/// costs. Project rule.
pub fn plan_by_first<O: Outside>(
    alloc: Global,
    given: &Given,
    line: &CommandLine,
    devices: &mut Devices<O>,
) -> Planning<Mem<Result<Planned, Outcome>>>
    requires workers { (1 ≤ line.now.workers) × (line.now.workers ≤ 16) }
    requires some { 1 ≤ length devices.old.hands.items }
    ensures gives { IfOk result.answer (GivesFrom
        (⟦<Devices<O> as Sees>⟧.seen devices.old given.now.machine)
        given.now line.now result.failed) }
    ensures asks { AsksFirst (⟦<Devices<O> as Sees>⟧.after devices.old)
        (⟦<Devices<O> as Sees>⟧.after devices.new) result.failed }
    ensures others { drop 1 devices.new.hands.items ≡ drop 1 devices.old.hands.items }
    ensures many { length devices.new.hands.items ≡ length devices.old.hands.items }
{
    let hand = &mut devices.hands[0];
    plan_by_hand(
        alloc,
        given,
        line,
        &mut devices.tree,
        &mut devices.shelf,
        hand,
    )
}
