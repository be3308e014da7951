// Tests of requests and outputs of goals (`goal_types`, `board`), and of a gate in memory (`outside_mem`).
ghost use Rattle.goal_types.specs.Goals.{HasOwnSlots};

use board::{bytes_in, with_output};
use goal_types::{GoalAnswer, GoalCall, GoalRequest, Need, Slot, request_line};
use mvn_base::{Gav, Phase};
use mvn_outside::Gate;
use mvn_shared::{Bytes, List, Mem, Text};
use outside_mem::MemGate;
use std::alloc::Global;
use std::test::Fail;

fn nothing(alloc: Global) -> Text {
    Text::of(String::new(alloc))
}

fn call(alloc: Global) -> GoalCall {
    GoalCall {
        group: nothing(alloc),
        artifact: nothing(alloc),
        version: nothing(alloc),
        goal: nothing(alloc),
        execution: nothing(alloc),
        phase: Phase::Package,
        configuration: List::new(alloc),
        slot: Slot::Main,
        need: Need::Nothing,
    }
}

// A request of a goal without names or files.
fn request(alloc: Global) -> GoalRequest
    ensures { HasOwnSlots result.own }
{
    let module = Gav {
        group: nothing(alloc),
        artifact: nothing(alloc),
        version: nothing(alloc),
    };
    GoalRequest {
        module,
        call: call(alloc),
        sources: List::new(alloc),
        own: List::new(alloc),
        classpath: List::new(alloc),
    }
}

// Whether a request's line begins with its artifact and its classpath.
fn line_begins(alloc: Global, request: &GoalRequest) -> Mem<bool>
    requires { HasOwnSlots request.now.own }
{
    let line = request_line(alloc, request)?;
    Ok(
        line.as_slice()
            .starts_with(b"{\"artifactId\":\"\",\"classpath\":[],"),
    )
}

// Whether the line of a request without names begins with its artifact and its classpath.
fn request_begins(alloc: Global) -> Mem<bool> {
    let request = request(alloc);
    line_begins(alloc, &request)
}

#[test]
fn a_request_is_a_line(rt: HostRuntime) -> Result<(), Fail> {
    let begins = request_begins(rt.alloc())?;
    assert!(rt; begins);
    Ok(())
}

// Whether a gate answers a request that it is done.
fn is_done<G: Gate>(gate: &mut G, request: &GoalRequest) -> bool
    requires { HasOwnSlots request.now.own }
{
    matches!(gate.call(request), Ok(GoalAnswer::Done))
}

// Whether a gate answers a request without names that it is done.
fn request_is_done<G: Gate>(alloc: Global, gate: &mut G) -> bool {
    let request = request(alloc);
    is_done(gate, &request)
}

#[test]
fn a_gate_without_answers_is_done(rt: HostRuntime) {
    let mut gate = MemGate::without_failures(List::new(rt.alloc()));
    assert!(rt; request_is_done(rt.alloc(), &mut gate));
}

#[test]
fn outputs_stand_in_the_order_of_slots(rt: HostRuntime) -> Result<(), Fail> {
    let bytes = Bytes::from_slice(rt.alloc(), b"four")?;
    let own = with_output(rt.alloc(), List::new(rt.alloc()), Slot::Main, bytes)?;
    assert!(rt; bytes_in(own.as_slice(), Slot::Main) == Some(b"four".as_slice()));
    Ok(())
}
