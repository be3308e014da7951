// Rows about the table of goals, and about lines.
use goal_types::{GoalRule, goal_rule, line_of, split_line};
use mvn_shared::{Bytes, Mem, Text};
use std::alloc::Global;

// A rule in words.
fn shown(alloc: Global, rule: GoalRule) -> Mem<Bytes> {
    let phase = match rule.phase {
        Some(phase) => phase.name(),
        None => "none",
    };
    let slot = rule.slot;
    let need = rule.need;
    let text = Text::of(format!(in alloc; "{phase} {slot:?} {need:?}")?);
    Bytes::from_slice(alloc, text.as_bytes())
}

/// Phase, slot and classpath of a goal.
pub(crate) fn rule(alloc: Global, fields: &[Bytes]) -> Mem<Bytes> {
    match fields {
        [group, plugin, goal] => shown(
            alloc,
            goal_rule(group.as_slice(), plugin.as_slice(), goal.as_slice()),
        ),
        _ => Bytes::from_slice(alloc, "no such row".as_bytes()),
    }
}

// A line and its parts, with a bar between two of them.
fn parts(alloc: Global, bytes: &[u8]) -> Mem<Bytes> {
    let mut shown = Bytes::from_slice(alloc, line_of(bytes))?;
    match split_line(bytes) {
        Some((line, behind)) => {
            shown.extend_from_slice("|".as_bytes())?;
            shown.extend_from_slice(line)?;
            shown.extend_from_slice("|".as_bytes())?;
            shown.extend_from_slice(behind)?;
        }
        None => shown.extend_from_slice("|none".as_bytes())?,
    }
    Ok(shown)
}

/// The line that bytes begin with.
pub(crate) fn line(alloc: Global, fields: &[Bytes]) -> Mem<Bytes> {
    match fields {
        [bytes] => parts(alloc, bytes.as_slice()),
        _ => Bytes::from_slice(alloc, "no such row".as_bytes()),
    }
}
