// A module's notes: what its dependency graph lacks, and which of its goals no phase runs.
ghost use Rattle.std.specs.Prelude.{◌≡◌, ◌++◌, codes, map, IfOk, OnOk};
ghost use Rattle.std.specs.Fmt.{decimal};
ghost use Rattle.mvn_base.specs.Gav.{gav_text};
ghost use Rattle.mvn_base.specs.Rule.{rule_number};
ghost use Rattle.report.specs.BuildDetails.{missing_note, note_text, notes_of, unbound_note};

use classpaths::Note;
use mvn_base::{Gav, Rule};
use mvn_shared::{List, Mem, Text};
use std::alloc::Global;

// The note of a POM that is missing.
#[tactic(auto, unfolding(crate::specs::BuildDetails::missing_note, mvn_base::specs::Gav::gav_text))]
fn missing_note(alloc: Global, gav: &Gav) -> Mem<Text>
    ensures { IfOk result (λ text. text ≡ missing_note gav.now) }
{
    Ok(Text::of(format!(in alloc; "note missing {gav}")?))
}

// The number of a rule, in digits.
fn rule_digits(alloc: Global, rule: Rule) -> Mem<Text>
    ensures { IfOk result (λ text. text ≡ decimal (rule_number rule)) }
{
    let number = rule.number();
    Ok(Text::of(format!(in alloc; "{number}")?))
}

// The note of a POM that breaks the rule with this number.
fn refused_note(alloc: Global, gav: &Gav, number: &Text) -> Mem<Text>
    ensures { IfOk result (λ text.
        text ≡ codes "note refused " ++ gav_text gav.now ++ codes " rule " ++ number.now) }
{
    let gav = Text::of(format!(in alloc; "{gav}")?);
    let mut text = String::from_str(alloc, "note refused ")?;
    text.push_str(gav.as_str())?;
    text.push_str(" rule ")?;
    text.push_str(number.as_str())?;
    Ok(Text::of(text))
}

// A note of a POM.
fn note_text(alloc: Global, note: &Note) -> Mem<Text>
    ensures { IfOk result (λ text. text ≡ note_text note.now) }
{
    match note {
        Note::Missing(gav) => missing_note(alloc, gav),
        Note::Refused(gav, rule) => {
            let number = rule_digits(alloc, *rule)?;
            refused_note(alloc, gav, &number)
        }
    }
}

// A note of a goal that no phase runs.
#[tactic(auto, unfolding(crate::specs::BuildDetails::unbound_note))]
fn unbound_note(alloc: Global, goal: &Text) -> Mem<Text>
    ensures { IfOk result (λ text. text ≡ unbound_note goal.now) }
{
    Ok(Text::of(format!(in alloc; "note unbound {goal}")?))
}

// The notes of the POMs, after those that are there.
fn push_notes(alloc: Global, list: &mut List<Text>, notes: &[Note]) -> Mem<()>
    ensures { OnOk result (list.new ≡ list.old ++ map note_text notes.now) }
{
    for note in notes {
        list.push(note_text(alloc, note)?)?;
    }
    Ok(())
}

// The notes of the goals, after those that are there.
fn push_unbound(alloc: Global, list: &mut List<Text>, unbound: &[Text]) -> Mem<()>
    ensures { OnOk result (list.new ≡ list.old ++ map unbound_note unbound.now) }
{
    for goal in unbound {
        list.push(unbound_note(alloc, goal)?)?;
    }
    Ok(())
}

/// A module's notes: each POM of its dependency graph that is missing or refused, in the order in which they are met, and
/// each goal that no phase runs. Costs their texts. Project format.
pub fn notes_of(alloc: Global, notes: &[Note], unbound: &[Text]) -> Mem<List<Text>>
    ensures { IfOk result (λ list. list ≡ notes_of notes.now unbound.now) }
{
    let mut list = List::new(alloc);
    push_notes(alloc, &mut list, notes)?;
    push_unbound(alloc, &mut list, unbound)?;
    Ok(list)
}
