// Lists of goals as texts.
use goal_types::GoalCall;
use lifecycle::GoalList;
use mvn_shared::{Mem, Text};
use row_models::push_settings;
use std::alloc::Global;

// A goal with its configuration.
fn push_call(shown: &mut String, call: &GoalCall) -> Mem<()> {
    shown.push_str(" ")?;
    shown.push_str(call.goal.as_str())?;
    push_settings(shown, &call.configuration)
}

fn push_calls(shown: &mut String, calls: &[GoalCall]) -> Mem<()> {
    for call in calls {
        push_call(shown, call)?;
    }
    Ok(())
}

fn push_unbound(shown: &mut String, unbound: &[Text]) -> Mem<()> {
    for text in unbound {
        shown.push_str(" [")?;
        shown.push_str(text.as_str())?;
        shown.push_str("]")?;
    }
    Ok(())
}

fn push_installs(shown: &mut String, installs: bool) -> Mem<()> {
    if installs {
        shown.push_str(" !")?;
    }
    Ok(())
}

fn push_list(shown: &mut String, list: &GoalList) -> Mem<()> {
    push_calls(shown, list.calls.as_slice())?;
    push_unbound(shown, list.unbound.as_slice())?;
    push_installs(shown, list.installs)
}

/// The goals that run, those that no phase is known for, and whether installing is reached.
pub(crate) fn goals_text(alloc: Global, list: &GoalList) -> Mem<String> {
    let mut shown = String::new(alloc);
    push_list(&mut shown, list)?;
    Ok(shown)
}
