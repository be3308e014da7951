//! A text split into plain pieces and expressions.

ghost use Rattle.std.specs.Prelude.{◌≡◌, ◌++◌, ◌∷◌, [], flat_map, option_map, IfOk, OnOk};
ghost use Rattle.interpolation.specs.declared.part.Part.TheVariants as variants;
ghost use Rattle.interpolation.specs.Parts.{Named, Dollar, Last, cut, inside_of, next_of, parts, spelled};
ghost use Rattle.interpolation.specs.Steps.{Goes, next_view};

use crate::part::Part;
use mvn_shared::{List, Mem, Text};
use std::alloc::Global;

// What a text goes on with.
pub(crate) enum Next<'a> {
    Last,
    Dollar(&'a str, &'a str),
    Named(&'a str, &'a str, &'a str),
}

// What stands before the first `$`, and after it.
fn cut_at_dollar<'a>(text: &'a str) -> Option<(&'a str, &'a str)>
    ensures { option_map (λ e. (e.0.now, e.1.now)) result ≡ cut 36 text.now }
{
    text.split_once('$')
}

// What stands before the first `}`, and after it.
fn cut_at_brace<'a>(text: &'a str) -> Option<(&'a str, &'a str)>
    ensures { option_map (λ e. (e.0.now, e.1.now)) result ≡ cut 125 text.now }
{
    text.split_once('}')
}

// What stands after an opening brace.
fn inside_of<'a>(text: &'a str) -> Option<&'a str>
    ensures { option_map (λ x. x.now) result ≡ inside_of text.now }
{
    text.strip_prefix('{')
}

// What a text goes on with.
fn next_of<'a>(text: &'a str) -> Next<'a>
    ensures { next_view result ≡ next_of text.now }
{
    let Some((before, after)) = cut_at_dollar(text) else {
        return Next::Last;
    };
    let Some(inside) = inside_of(after) else {
        return Next::Dollar(before, after);
    };
    match cut_at_brace(inside) {
        Some((name, further)) => Next::Named(before, name, further),
        None => Next::Last,
    }
}

// A plain piece, after a list.
fn push_plain(alloc: Global, list: &mut List<Part>, text: &str) -> Mem<()>
    ensures { OnOk result (list.new ≡ list.old ++ variants.Plain text.now ∷ []) }
{
    list.push(Part::Plain(Text::from_str(alloc, text)?))
}

// An expression, after a list.
fn push_name(alloc: Global, list: &mut List<Part>, name: &str) -> Mem<()>
    ensures { OnOk result (list.new ≡ list.old ++ variants.Name name.now ∷ []) }
{
    list.push(Part::Name(Text::from_str(alloc, name)?))
}

// What a text goes on with, after a list, and what follows then.
fn push_next<'a>(alloc: Global, list: &mut List<Part>, text: &'a str) -> Mem<Option<&'a str>>
    ensures { IfOk result (λ further.
        Goes list.old list.new text.now (option_map (λ x. x.now) further)) }
{
    match next_of(text) {
        Next::Last => {
            push_plain(alloc, list, text)?;
            Ok(None)
        }
        Next::Dollar(before, further) => {
            push_plain(alloc, list, before)?;
            push_plain(alloc, list, "$")?;
            Ok(Some(further))
        }
        Next::Named(before, name, further) => {
            push_plain(alloc, list, before)?;
            push_name(alloc, list, name)?;
            Ok(Some(further))
        }
    }
}

// The parts of a text.
#[tactic(auto, unfolding(crate::specs::Parts::parts))]
fn split_all(alloc: Global, text: &Text) -> Mem<List<Part>>
    ensures { IfOk result (λ list. list ≡ parts text.now) }
{
    let mut list = List::new(alloc);
    let mut rest = text.as_str();
    for _ in 0..text.len() {
        let Some(further) = push_next(alloc, &mut list, rest)? else {
            return Ok(list);
        };
        rest = further;
    }
    push_plain(alloc, &mut list, rest)?;
    Ok(list)
}

/// The plain pieces of a text and the expressions between them, from the left: `${` begins one, and the next `}` ends
/// it; a `${` that no `}` follows is plain. Written one after another they are the text. Costs its length. POM
/// Reference, "Properties".
#[tactic(auto, using(crate::proofs::Cuts::parts_written))]
pub fn parts(alloc: Global, text: &Text) -> Mem<List<Part>>
    ensures value { IfOk result (λ list. list ≡ parts text.now) }
    ensures whole { IfOk result (λ list. flat_map spelled list ≡ text.now) }
{
    let list = split_all(alloc, text)?;
    Ok(list)
}
