//! The loop over the pieces of a text, which builds the elements and ends at the first rule that fails.

ghost use Rattle.std.specs.Prelude.{◌≡◌, ◌<◌, ◌==◌, ◌&&◌, nat_eq, codes, length, IfOk};
ghost use Rattle.std.specs.List.{starts_with};
ghost use Rattle.std.specs.Str.{chars};
ghost use Rattle.pom_text.specs.Growth.{standing_of};
ghost use Rattle.pom_text.specs.Runs.{said};
ghost use Rattle.pom_text.specs.Running.{begins_element, finish, outcome_of, run};
ghost use Rattle.pom_text.specs.Spells.{is_done, is_doctype};
ghost use Rattle.pom_text.specs.Tree.{nothing_yet};

use crate::cuts::{after, is_over, run_of, skip_space};
use crate::document::Document;
use crate::node::Node;
use crate::part::Part;
use crate::piece::piece_of;
use crate::tree::Tree;
use mvn_base::Rule;
use mvn_shared::{List, Mem};
use std::alloc::Global;

/// The most elements that may be open at once. Project rule.
pub const DEPTH: u32 = 64;

/// The elements of a text; or the rule that ends the reading, and what follows there.
#[derive(Drop)]
pub(crate) enum Reading<'a> {
    Whole(List<Node>),
    Halted(Rule, &'a str),
}

// Whether the root has begun and nothing is open.
fn is_done(tree: &Tree) -> bool
    ensures { result ≡ is_done (standing_of tree.now) }
{
    !tree.nodes.is_empty() && tree.path.is_empty()
}

// Whether `<!DOCTYPE` stands next.
fn begins_doctype(text: &str) -> bool
    ensures { result ≡ starts_with nat_eq (chars text.now) (codes "<!DOCTYPE") }
{
    match after(text, b"<!DOCTYPE") {
        Some(_) => true,
        None => false,
    }
}

// Whether a document type begins before the root.
fn is_doctype(tree: &Tree, text: &str) -> bool
    ensures { result ≡ is_doctype (standing_of tree.now) (chars text.now) }
{
    tree.nodes.is_empty() && begins_doctype(text)
}

// What comes of a text where no piece goes on.
#[tactic(auto, unfolding(crate::specs::Running::finish))]
fn finish(tree: Tree, text: &str, whole: bool) -> Reading<'_>
    ensures { outcome_of result ≡ finish whole (standing_of tree) (chars text.now) }
{
    if is_doctype(&tree, text) {
        return Reading::Halted(Rule::Doctype, text);
    }
    if is_over(text) && is_done(&tree) && whole {
        return Reading::Whole(List::of(tree.nodes));
    }
    Reading::Halted(Rule::NotPomText, text)
}

// Whether a part begins an element in as many others as may be.
fn is_deep(tree: &Tree, part: &Part) -> bool
    ensures { result ≡ (length tree.now.path.items == 64 && begins_element (said part.now)) }
{
    tree.path.len() == DEPTH as usize && part.begins_element()
}

/// Reads a text in which each character may stand; `whole` says that nothing follows it. Costs one pass, and one copy
/// of the text, which the elements' texts share, if an element has a text.
pub(crate) fn read_pieces(alloc: Global, text: &str, whole: bool) -> Mem<Reading<'_>>
    requires { length (chars text.now) < 4294967295 }
    ensures { IfOk result (λ reading. outcome_of reading ≡ run whole nothing_yet (chars text.now)) }
{
    let mut tree = Tree::new(alloc);
    let mut document = Document::new(text);
    let mut rest = text;
    'pieces: loop {
        let (run, marked) = run_of(rest);
        let end = text.len().wrapping_sub(marked.len());
        if !tree.take_run(alloc, run, &mut document, end)? {
            return Ok(Reading::Halted(Rule::NotPomText, skip_space(rest)));
        }
        let Some((part, behind)) = piece_of(marked) else {
            return Ok(finish(tree, marked, whole));
        };
        let deep = is_deep(&tree, &part);
        if !tree.take(alloc, part)? {
            return Ok(Reading::Halted(Rule::NotPomText, marked));
        }
        if deep {
            return Ok(Reading::Halted(Rule::TooLarge, marked));
        }
        rest = behind;
    }
}
