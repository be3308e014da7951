// The gate over children in memory.
ghost use Rattle.std.specs.Prelude.{IfOk};
ghost use Rattle.goal_types.specs.Goals.{HasOwnSlots};

use crate::calls;
use child_mem::{ChildScript, MemSpawner};
use children::ChildRecord;
use gates::ProcessGate;
use goal_types::{GoalAnswer, GoalCall, GoalRequest, Need, Slot, request_bytes};
use mvn_base::Phase;
use mvn_outside::{DeviceFault, Gate};
use mvn_shared::{Bytes, List, Mem, Text};
use outside_mem::Calls;
use row_fields::{gav, unescaped};
use std::alloc::Global;

// A gate over children in memory.
type MemGate = ProcessGate<MemSpawner<Calls>>;

// The goal surefire:test.
fn goal_call(alloc: Global) -> Mem<GoalCall> {
    let group = Text::from_str(alloc, "org.apache.maven.plugins")?;
    let artifact = Text::from_str(alloc, "maven-surefire-plugin")?;
    let goal = Text::from_str(alloc, "test")?;
    let execution = Text::from_str(alloc, "default-test")?;
    Ok(GoalCall {
        group,
        artifact,
        version: Text::of(String::new(alloc)),
        goal,
        execution,
        phase: Phase::Test,
        configuration: List::new(alloc),
        slot: Slot::Nowhere,
        need: Need::Test,
    })
}

fn request(alloc: Global) -> Mem<GoalRequest>
    ensures { IfOk result (λ request. HasOwnSlots request.own) }
{
    let module = gav(alloc, "demo", "app", "1.0")?;
    let call = goal_call(alloc)?;
    Ok(GoalRequest {
        module,
        call,
        sources: List::new(alloc),
        own: List::new(alloc),
        classpath: List::new(alloc),
    })
}

fn spelled_length(alloc: Global, len: usize) -> Mem<String> {
    Ok(format!(in alloc; "produced {len}")?)
}

// An answer in words.
fn spelled(alloc: Global, answer: &GoalAnswer) -> Mem<String> {
    match answer {
        GoalAnswer::Done => Ok(String::from_str(alloc, "done")?),
        GoalAnswer::Produced(bytes) => spelled_length(alloc, bytes.len()),
        GoalAnswer::Failed(text) => Ok(format!(in alloc; "failed {text}")?),
    }
}

// What the gate answered, in words.
fn said(alloc: Global, answer: &Result<GoalAnswer, DeviceFault>) -> Mem<String> {
    match answer {
        Ok(answer) => spelled(alloc, answer),
        Err(fault) => Ok(format!(in alloc; "{fault}")?),
    }
}

// Whether a child was given the request, whether its input is closed, and how many bytes were read.
fn push_child(alloc: Global, shown: &mut String, wanted: &[u8], child: &ChildRecord) -> Mem<()> {
    let given = child.given.as_slice() == wanted;
    let closed = child.closed;
    let taken = child.taken;
    let told = format!(in alloc; " given {given} closed {closed} read {taken}")?;
    Ok(shown.push_str(told.as_str())?)
}

fn push_number_left(alloc: Global, shown: &mut String, left: u64) -> Mem<()> {
    let told = format!(in alloc; " left {left}")?;
    Ok(shown.push_str(told.as_str())?)
}

// The same of the children, after a semicolon, and how many are left.
fn push_children(
    alloc: Global,
    shown: &mut String,
    wanted: &[u8],
    spawner: &MemSpawner<Calls>,
) -> Mem<()> {
    shown.push_str(";")?;
    for child in spawner.records() {
        push_child(alloc, shown, wanted, child)?;
    }
    push_number_left(alloc, shown, spawner.children())
}

// A spawner of one child, some of whose calls fail.
fn spawner(alloc: Global, script: ChildScript, failing: &List<u64>) -> Mem<MemSpawner<Calls>> {
    let mut scripts = List::new(alloc);
    scripts.push(script)?;
    MemSpawner::new(alloc, scripts, failing)
}

fn told(
    alloc: Global,
    answer: &Result<GoalAnswer, DeviceFault>,
    wanted: &[u8],
    spawner: &MemSpawner<Calls>,
) -> Mem<String> {
    let mut shown = said(alloc, answer)?;
    push_children(alloc, &mut shown, wanted, spawner)?;
    Ok(shown)
}

// What is told of an answer, of the children, and of how many are left.
fn shown(
    alloc: Global,
    answer: &Result<GoalAnswer, DeviceFault>,
    wanted: &[u8],
    spawner: &MemSpawner<Calls>,
) -> Mem<Bytes> {
    let shown = told(alloc, answer, wanted, spawner)?;
    Bytes::from_slice(alloc, shown.as_bytes())
}

// What a call of a gate comes to, whose child is to be given these bytes.
fn answered(alloc: Global, gate: &mut MemGate, request: &GoalRequest, wanted: &[u8]) -> Mem<Bytes>
    requires { HasOwnSlots request.now.own }
{
    let answer = gate.call(request);
    shown(alloc, &answer, wanted, gate.spawner())
}

// What a call of a gate comes to.
fn called(alloc: Global, gate: &mut MemGate, request: &GoalRequest) -> Mem<Bytes>
    requires { HasOwnSlots request.now.own }
{
    let wanted = request_bytes(alloc, request)?;
    answered(alloc, gate, request, wanted.as_slice())
}

fn asked_by(alloc: Global, gate: &mut MemGate) -> Mem<Bytes> {
    let request = request(alloc)?;
    called(alloc, gate, &request)
}

// What is told of a gate with one child, where some calls fail.
fn asked(alloc: Global, script: ChildScript, failing: &List<u64>) -> Mem<Bytes> {
    let spawner = spawner(alloc, script, failing)?;
    let mut gate = ProcessGate::new(alloc, spawner);
    asked_by(alloc, &mut gate)
}

/// The gate's answer to an output and a status.
pub(crate) fn ask(alloc: Global, fields: &str) -> Mem<Bytes> {
    let (status, output) = fields.split_once(' ').unwrap_or((fields, ""));
    let status = status.parse::<i32>().unwrap_or(0);
    let output = unescaped(alloc, output)?;
    asked(alloc, ChildScript { output, status }, &List::new(alloc))
}

/// The gate's answer where one call of the spawner fails.
pub(crate) fn fail(alloc: Global, number: &str) -> Mem<Bytes> {
    let failing = calls(alloc, number)?;
    let output = Bytes::from_slice(alloc, "{\"answer\":\"done\"}\n".as_bytes())?;
    asked(alloc, ChildScript { output, status: 0 }, &failing)
}

// A text, and so many bytes after it.
fn lengthened(alloc: Global, front: &str, count: &str) -> Mem<Bytes> {
    let count = count.parse::<usize>().unwrap_or(0);
    let bytes = vec![in alloc; b'x'; count]?;
    let mut all = Vec::from_slice(alloc, front.as_bytes())?;
    all.extend_from_slice(&bytes)?;
    Ok(Bytes::of(all))
}

/// The gate's answer to an answer with an output of so many bytes.
pub(crate) fn produced(alloc: Global, count: &str) -> Mem<Bytes> {
    let line = format!(in alloc; "{{\"answer\":\"produced\",\"length\":{count}}}\n")?;
    let output = lengthened(alloc, &line, count)?;
    asked(alloc, ChildScript { output, status: 0 }, &List::new(alloc))
}

/// The gate's answer to so many bytes that are none, of a child that ends with 7; with a second number, where that call of the spawner fails.
pub(crate) fn long(alloc: Global, numbers: &str) -> Mem<Bytes> {
    let (count, call) = numbers.split_once(' ').unwrap_or((numbers, ""));
    let failing = calls(alloc, call)?;
    let output = lengthened(alloc, "", count)?;
    asked(alloc, ChildScript { output, status: 7 }, &failing)
}
