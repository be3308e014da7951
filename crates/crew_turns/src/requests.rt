// What a goal of a module is asked, with the entries of its classpath that it needs.
ghost use Rattle.std.specs.Prelude.{◌≡◌, List, [], ◌∷◌, ◌++◌, length, map, IfOk, OnOk};
ghost use Rattle.mvn_shared.specs.Files.{Files};
ghost use Rattle.goal_types.specs.declared.goal.GoalCall.{GoalCall};
ghost use Rattle.goal_types.specs.declared.goal.GoalRequest.{GoalRequest};
ghost use Rattle.goal_types.specs.declared.goal.OwnBytes.{OwnBytes};
ghost use Rattle.goal_types.specs.declared.goal.PathEntry.{PathEntry};
ghost use Rattle.build_core.specs.OneThread.{is_needed, path_entry, request};
ghost use Rattle.build_core.specs.declared.plan.Plan.{Plan};
ghost use Rattle.build_core.specs.declared.plan.PlanModule.{PlanModule};
ghost use Rattle.run_law.specs.Gathered.{needed_of};
ghost use Rattle.crew_turns.specs.Asking.{IsRequestOf, asked};

use build_core::{Entry, PlanModule};
use goal_types::{GoalCall, GoalRequest, Need, PathEntry};
use mvn_shared::{List, Mem};
use std::alloc::Global;

// Whether a goal of this need is given the entry.
fn is_needed(need: Need, entry: &Entry) -> bool
    ensures { result ≡ is_needed need entry.now }
{
    match need {
        Need::Nothing => false,
        Need::Compile => entry.compile,
        Need::Runtime => entry.runtime,
        Need::Test => entry.test,
    }
}

fn copy_of_path(path: &PathEntry) -> Mem<PathEntry>
    ensures { IfOk result (λ copy. copy ≡ path.now) }
{
    let bytes = match &path.bytes {
        Some(bytes) => Some(bytes.clone()?),
        None => None,
    };
    Ok(PathEntry {
        name: path.name.clone()?,
        bytes,
    })
}

// Adds a copy of an entry to others.
fn push_copy(needed: &mut List<PathEntry>, path: &PathEntry) -> Mem<()>
    ensures { OnOk result (needed.new ≡ needed.old ++ path.now ∷ []) }
{
    needed.push(copy_of_path(path)?)?;
    Ok(())
}

fn copy_of_call(call: &GoalCall) -> Mem<GoalCall>
    ensures { IfOk result (λ copy. copy ≡ call.now) }
{
    Ok(call.clone()?)
}

/// Copies of the entries that a goal needs, in order, of a module's entries with their bytes. Costs their bytes. Introduction to the
/// Dependency Mechanism.
#[tactic(auto, using(crate::proofs::Needs::needed_all, std::proofs::lemmas::Option::slice_get_read))]
pub fn needed_entries(
    alloc: Global,
    need: Need,
    entries: &[Entry],
    paths: &[PathEntry],
) -> Mem<List<PathEntry>>
    requires { length paths.now ≡ length entries.now }
    ensures { IfOk result (λ list. list ≡ needed_of need entries.now paths.now) }
{
    let mut needed = List::new(alloc);
    for at in 0..entries.len() {
        if is_needed(need, &entries[at]) {
            push_copy(&mut needed, &paths[at])?;
        }
    }
    Ok(needed)
}

/// A request of the module for a goal, with no classpath and no outputs yet. Costs the sources. Introduction to the Build Lifecycle.
pub fn first_request(alloc: Global, unit: &PlanModule, call: &GoalCall) -> Mem<GoalRequest>
    ensures { IfOk result (λ request. IsRequestOf unit.now [] request) }
{
    let module = unit.gav.clone()?;
    let sources = unit.sources.clone()?;
    let call = copy_of_call(call)?;
    Ok(GoalRequest {
        module,
        call,
        sources,
        own: List::new(alloc),
        classpath: List::new(alloc),
    })
}

/// Makes a request that of a goal, with the outputs that it has: with the goal's call, and the entries of the classpath that it needs.
/// Costs their bytes. Introduction to the Build Lifecycle.
pub fn ask_for(
    alloc: Global,
    unit: &PlanModule,
    paths: &[PathEntry],
    call: &GoalCall,
    request: &mut GoalRequest,
) -> Mem<()>
    requires { length paths.now ≡ length unit.now.entries }
    ensures { OnOk result (request.new ≡ asked request.old call.now
        (needed_of call.now.need unit.now.entries paths.now)) }
{
    let path = needed_entries(alloc, call.need, unit.entries.as_slice(), paths)?;
    request.call = copy_of_call(call)?;
    request.classpath = path;
    Ok(())
}

/// A law: where all entries of a module were gathered, a request of the module that is made a goal's is the one that the definition of the
/// build by one hand asks, with the outputs that it has. Does nothing. Introduction to the Build Lifecycle.
pub fn requests_are_defined()
    ensures { (plan : Plan) (files : Files) (outputs : List (List OwnBytes)) (m : PlanModule)
        (own : List OwnBytes) (before : GoalRequest) (call : GoalCall) (paths : List PathEntry)
        → IsRequestOf m own before → paths ≡ map (path_entry plan files outputs) m.entries
        → asked before call (needed_of call.need m.entries paths)
        ≡ request plan files outputs m call own }
{}
