// Builds event by event (`event_core`).
use build_core::Plan;
use event_core::Core;
use mvn_shared::List;
use scripts::Outline;
use std::alloc::Global;
use std::test::Fail;

// Whether a plan that has room is complete before any event.
fn is_complete(alloc: Global, plan: &Plan) -> Result<bool, Fail> {
    if plan.modules.len() >= 1 << 32 || plan.names.len() >= 1 << 32 {
        return Err(Fail::new("too many modules or names"));
    }
    if !Outline::of(alloc, plan)?.has_room() {
        return Err(Fail::new("no room"));
    }
    Ok(Core::new(alloc, plan)?.is_complete())
}

// A plan without modules, names and files.
fn nothing(alloc: Global) -> Plan {
    Plan {
        modules: List::new(alloc),
        names: List::new(alloc),
        files: List::new(alloc),
        present: List::new(alloc),
        workers: 1,
        events: 0,
    }
}

#[test]
fn a_plan_of_nothing_is_complete(rt: HostRuntime) -> Result<(), Fail> {
    let plan = nothing(rt.alloc());
    assert!(rt; is_complete(rt.alloc(), &plan)?);
    Ok(())
}
