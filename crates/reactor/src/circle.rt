//! The refusal of modules that stand on one another in a circle.

ghost use Rattle.std.specs.Prelude.{◌≡◌, ◌++◌, codes, flat_map, IfOk, OnOk};
ghost use Rattle.mvn_base.specs.Gav.{gav_text};
ghost use Rattle.reactor.specs.Circles.{circle_refused, circle_text, gav_at, pom_at, refused_from};

use model_types::Model;
use mvn_base::{Gav, Place, PomId, Refusal, Rule};
use mvn_shared::{Mem, Shared, Text};
use std::alloc::Global;

// Adds coordinates to a text.
fn push_gav(alloc: Global, text: &mut Text, gav: &Gav) -> Mem<()>
    ensures { OnOk result (text.new ≡ text.old ++ gav_text gav.now) }
{
    let gav = Text::of(format!(in alloc; "{gav}")?);
    text.push_str(gav.as_str())
}

// Adds the coordinates of the module of a number to a text.
fn push_at(alloc: Global, text: &mut Text, modules: &[Shared<Model>], n: u32) -> Mem<()>
    ensures { OnOk result (text.new ≡ text.old ++ gav_at modules.now n) }
{
    match modules.get(n as usize) {
        Some(m) => push_gav(alloc, text, &m.gav),
        None => Ok(()),
    }
}

// Adds the coordinates of the module of a number to a text, and an arrow.
fn push_step(alloc: Global, text: &mut Text, modules: &[Shared<Model>], n: u32) -> Mem<()>
    ensures { OnOk result (text.new ≡ text.old ++ (gav_at modules.now n ++ codes " -> ")) }
{
    push_at(alloc, text, modules, n)?;
    text.push_str(" -> ")
}

// The coordinates of a circle's modules, each with an arrow after it.
fn steps(alloc: Global, modules: &[Shared<Model>], circle: &[u32]) -> Mem<Text>
    ensures { IfOk result (λ text. text
        ≡ flat_map (λ n. gav_at modules.now n ++ codes " -> ") circle.now) }
{
    let mut text = Text::from_str(alloc, "")?;
    for n in circle {
        push_step(alloc, &mut text, modules, *n)?;
    }
    Ok(text)
}

// The coordinates of a circle's modules, and its first again.
fn circle_text(alloc: Global, modules: &[Shared<Model>], circle: &[u32], first: u32) -> Mem<Text>
    ensures { IfOk result (λ text. text ≡ circle_text modules.now circle.now first) }
{
    let mut text = steps(alloc, modules, circle)?;
    push_at(alloc, &mut text, modules, first)?;
    Ok(text)
}

// The POM of the module of a number.
fn pom_at(alloc: Global, modules: &[Shared<Model>], n: u32) -> Mem<PomId>
    ensures { IfOk result (λ pom. pom ≡ pom_at modules.now n) }
{
    match modules.get(n as usize) {
        Some(m) => Ok(m.pom.value().clone()?),
        None => Ok(PomId::Path(Text::from_str(alloc, "")?)),
    }
}

// The refusal of a circle from one of its modules on.
fn refused_from(
    alloc: Global,
    modules: &[Shared<Model>],
    circle: &[u32],
    first: u32,
) -> Mem<Refusal>
    ensures { IfOk result (λ refusal. refusal ≡ refused_from modules.now circle.now first) }
{
    let pom = pom_at(alloc, modules, first)?;
    let place = Place::Name(circle_text(alloc, modules, circle, first)?);
    Ok(Refusal {
        pom,
        rule: Rule::ReactorCycle,
        place,
    })
}

/// The refusal of a circle. Costs the coordinates of its modules.
#[tactic(auto, unfolding(crate::specs::Circles::circle_refused))]
pub(crate) fn circle_refused(
    alloc: Global,
    modules: &[Shared<Model>],
    circle: &[u32],
) -> Mem<Refusal>
    ensures { IfOk result (λ refusal. refusal ≡ circle_refused modules.now circle.now) }
{
    let first = match circle.get(0) {
        Some(first) => *first,
        None => 0,
    };
    refused_from(alloc, modules, circle, first)
}
