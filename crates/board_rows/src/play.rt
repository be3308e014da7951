// A whole build by one thread that plays all workers, in an order that is drawn.
ghost use Rattle.std.specs.Prelude.{◌<◌, ◌^◌, length};
ghost use Rattle.event_core.specs.SoundPlans.{IsSoundPlan};
ghost use Rattle.outside_mem.specs.FilesNamed.{files_named};
ghost use Rattle.run_law.specs.Given.{IsPresent};

use board::{Finished, Next};
use board_play::{Hand, Site, Stage, Table, Turn, module_turn};
use build_core::Plan;
use mvn_shared::Mem;
use outside_mem::{Calls, MemArea, MemRemote, MemShelf};
use std::alloc::Global;
use test_projects::{Device, Draws, Project, World};

/// The most turns of a build: none needs so many, unless workers wait for one another for ever.
const TURNS: u32 = 100_000;

/// What a whole build leaves; nothing where it didn't come to its end.
pub(crate) type Left = Option<Finished<MemShelf<Calls>>>;

// The remote repository of a worker.
fn remote_of(
    alloc: Global,
    project: &Project,
    world: &World,
    worker: u32,
) -> Mem<MemRemote<Calls>> {
    let failing = world.failing(alloc, Device::Remote(worker))?;
    MemRemote::<Calls>::new(alloc, project.remote.clone()?, &failing)
}

fn area_of(alloc: Global, world: &World, worker: u32) -> Mem<MemArea<Calls>> {
    let failing = world.failing(alloc, Device::Area(worker))?;
    MemArea::<Calls>::new(alloc, &failing)
}

fn hand(alloc: Global, project: &Project, world: &World, worker: u32) -> Mem<Hand> {
    let area = area_of(alloc, world, worker)?;
    let remote = remote_of(alloc, project, world, worker)?;
    Ok(Hand {
        remote,
        area,
        module: 0,
        stage: Stage::Idle,
    })
}

// Adds so many hands.
fn put_hands(
    alloc: Global,
    project: &Project,
    world: &World,
    hands: &mut Vec<Hand>,
    count: u32,
) -> Mem<()> {
    for worker in 0..count {
        hands.push(hand(alloc, project, world, worker)?)?;
    }
    Ok(())
}

// An idle worker asks for a module.
fn begin(site: &mut Table, worker: u32, hand: &mut Hand) -> Turn {
    match site.start(worker) {
        Some(Next::Module(number)) => {
            hand.module = number;
            Turn::Goes(Stage::Share(0))
        }
        Some(Next::Skipped(_)) => Turn::Goes(Stage::Idle),
        Some(Next::Wait) => Turn::Waits,
        Some(Next::Done) => Turn::Over,
        None => Turn::Stuck,
    }
}

fn turn(
    alloc: Global,
    site: &mut Table,
    world: &World,
    plan: &Plan,
    worker: u32,
    hand: &mut Hand,
) -> Mem<Turn> {
    if let Stage::Idle = hand.stage {
        return Ok(begin(site, worker, hand));
    }
    match plan.modules.get(hand.module as usize) {
        Some(module) => module_turn(alloc, site, worker, hand, world, plan, module),
        None => Ok(Turn::Stuck),
    }
}

// Whether the build goes on after a turn.
fn goes_on(hand: &mut Hand, turn: Turn) -> bool {
    match turn {
        Turn::Goes(stage) => {
            hand.stage = stage;
            true
        }
        Turn::Waits => true,
        Turn::Over | Turn::Stuck => false,
    }
}

// A turn of this worker. Whether the build goes on.
fn one_turn(
    alloc: Global,
    site: &mut Table,
    world: &World,
    plan: &Plan,
    worker: u32,
    hands: &mut Vec<Hand>,
) -> Mem<bool> {
    let Some(hand) = hands.get_mut(worker as usize) else {
        return Ok(false);
    };
    let turn = turn(alloc, site, world, plan, worker, hand)?;
    Ok(goes_on(hand, turn))
}

// Turns of workers that are drawn, until all is over or a worker is stuck.
fn play(
    alloc: Global,
    site: &mut Table,
    world: &World,
    plan: &Plan,
    hands: &mut Vec<Hand>,
) -> Mem<()> {
    let mut draws = Draws::new(world.seed.wrapping_mul(7));
    for _ in 0..TURNS {
        let worker = drawn(&mut draws, plan.workers);
        if !one_turn(alloc, site, world, plan, worker, hands)? {
            return Ok(());
        }
    }
    Ok(())
}

// One of so many, where there are any.
fn drawn(draws: &mut Draws, count: u32) -> u32 {
    if count == 0 { 0 } else { draws.below(count) }
}

// Turns that are drawn, of all workers of the plan, whose hands aren't there yet.
fn played_by(
    alloc: Global,
    site: &mut Table,
    project: &Project,
    plan: &Plan,
    world: &World,
    hands: &mut Vec<Hand>,
) -> Mem<()> {
    put_hands(alloc, project, world, hands, plan.workers)?;
    play(alloc, site, world, plan, hands)
}

// Turns that are drawn, of all workers of the plan.
fn played(
    alloc: Global,
    site: &mut Table,
    project: &Project,
    plan: &Plan,
    world: &World,
) -> Mem<()> {
    let mut hands = Vec::new(alloc);
    played_by(alloc, site, project, plan, world, &mut hands)
}

// What a build left whose turns were played, if there was memory for them.
fn left_of(played: Mem<()>, left: Left) -> Mem<Left> {
    match played {
        Ok(()) => Ok(left),
        Err(error) => Err(error),
    }
}

/// The build of a plan by its workers, in turns that are drawn.
pub(crate) fn build(alloc: Global, project: &Project, plan: &Plan, world: &World) -> Mem<Left>
    requires sound { IsSoundPlan plan.now }
    requires few { plan.now.events < 2 ^ 32 }
    requires names { length plan.now.names < 2 ^ 32 }
    requires present { IsPresent plan.now (files_named project.now.local) }
{
    let mut site = site(alloc, project, plan, world)?;
    let played = played(alloc, &mut site, project, plan, world);
    left_of(played, site.finish())
}

// The site of a build that hasn't begun.
#[tactic(auto, using(mem_plans::proofs::Planned::starts))]
fn site<'a>(alloc: Global, project: &Project, plan: &'a Plan, world: &World) -> Mem<Table<'a>>
    requires sound { IsSoundPlan plan.now }
    requires few { plan.now.events < 2 ^ 32 }
    requires names { length plan.now.names < 2 ^ 32 }
    requires present { IsPresent plan.now (files_named project.now.local) }
{
    let failing = world.failing(alloc, Device::Shelf)?;
    let files = project.local.clone()?;
    let shelf = MemShelf::<Calls>::new(alloc, files, &failing)?;
    Site::new(alloc, plan, shelf)
}
