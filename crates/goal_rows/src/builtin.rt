// The built-in goals.
ghost use Rattle.std.specs.Prelude.{IfOk};
ghost use Rattle.goal_types.specs.Goals.{HasOwnSlots};

use gates::Builtin;
use goal_types::{GoalAnswer, GoalCall, GoalRequest, Need, Slot, SourceFile};
use mvn_base::Phase;
use mvn_outside::{DeviceFault, Gate};
use mvn_shared::{Bytes, List, Mem, Text};
use row_fields::gav;
use std::alloc::Global;

// The goal surefire:test without settings.
fn goal_call(alloc: Global, slot: Slot) -> Mem<GoalCall> {
    let group = Text::from_str(alloc, "org.apache.maven.plugins")?;
    let artifact = Text::from_str(alloc, "maven-surefire-plugin")?;
    let goal = Text::from_str(alloc, "test")?;
    let execution = Text::from_str(alloc, "default-test")?;
    Ok(GoalCall {
        group,
        artifact,
        version: Text::of(String::new(alloc)),
        goal,
        execution,
        phase: Phase::Test,
        configuration: List::new(alloc),
        slot,
        need: Need::Test,
    })
}

/// A request of surefire:test for demo:app:1.0 without settings, sources and outputs.
pub(crate) fn request(alloc: Global, slot: Slot) -> Mem<GoalRequest>
    ensures { IfOk result (λ request. HasOwnSlots request.own) }
{
    let module = gav(alloc, "demo", "app", "1.0")?;
    let call = goal_call(alloc, slot)?;
    Ok(GoalRequest {
        module,
        call,
        sources: List::new(alloc),
        own: List::new(alloc),
        classpath: List::new(alloc),
    })
}

fn path_of(alloc: Global, path: &Bytes) -> Text {
    Text::from_slice(alloc, path.as_slice()).unwrap_or(Text::of(String::new(alloc)))
}

fn source(alloc: Global, path: &Bytes, bytes: &Bytes) -> Mem<SourceFile> {
    let bytes = bytes.clone()?;
    let path = path_of(alloc, path);
    Ok(SourceFile { path, bytes })
}

// Adds sources, each a path and its bytes.
fn push_sources(alloc: Global, list: &mut List<SourceFile>, fields: &[Bytes]) -> Mem<()> {
    for pair in fields.chunks_exact(2) {
        if let [path, bytes] = pair {
            list.push(source(alloc, path, bytes)?)?;
        }
    }
    Ok(())
}

fn spelled(alloc: Global, word: &str, bytes: &[u8]) -> Mem<Bytes> {
    let mut shown = Bytes::from_slice(alloc, word.as_bytes())?;
    shown.extend_from_slice(bytes)?;
    Ok(shown)
}

fn shown(alloc: Global, answer: &GoalAnswer) -> Mem<Bytes> {
    match answer {
        GoalAnswer::Done => spelled(alloc, "done", "".as_bytes()),
        GoalAnswer::Produced(bytes) => spelled(alloc, "produced ", bytes.as_slice()),
        GoalAnswer::Failed(text) => spelled(alloc, "failed ", text.as_bytes()),
    }
}

fn told_of_answer(alloc: Global, answer: &Result<GoalAnswer, DeviceFault>) -> Mem<Bytes> {
    match answer {
        Ok(answer) => shown(alloc, answer),
        Err(_) => spelled(alloc, "the gate failed", "".as_bytes()),
    }
}

fn called(alloc: Global, request: &GoalRequest) -> Mem<Bytes>
    requires { HasOwnSlots request.now.own }
{
    let mut gate = Builtin::new(alloc);
    told_of_answer(alloc, &gate.call(request))
}

// What is answered to a request with these sources besides.
fn called_with(alloc: Global, request: &mut GoalRequest, fields: &[Bytes]) -> Mem<Bytes>
    requires { HasOwnSlots request.old.own }
{
    push_sources(alloc, &mut request.sources, fields)?;
    called(alloc, request)
}

fn answered(alloc: Global, slot: Slot, fields: &[Bytes]) -> Mem<Bytes> {
    let mut request = request(alloc, slot)?;
    called_with(alloc, &mut request, fields)
}

/// What surefire:test answers for demo:app:1.0: `main` where it has an output, and sources, each a path and its bytes.
pub(crate) fn told(alloc: Global, fields: &[Bytes]) -> Mem<Bytes> {
    match fields {
        [slot, fields @ ..] if slot.as_slice() == "main".as_bytes() => {
            answered(alloc, Slot::Main, fields)
        }
        [_, fields @ ..] => answered(alloc, Slot::Nowhere, fields),
        [] => spelled(alloc, "no such row", "".as_bytes()),
    }
}
