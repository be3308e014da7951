//! `Version`: how a version is read into tokens, and the order of versions.

ghost use Rattle.std.specs.Prelude.{◌≡◌, ◌↔◌, [], ◌∷◌, ◌++◌, map, IfOk, OnOk};
ghost use Rattle.std.specs.declared.cmp.Ordering.TheVariants.{Equal};
ghost use Rattle.std.specs.Cmp.Lexicographic.{slice_cmp};
ghost use Rattle.versions.specs.Cuts.{added, cut_token, stripped};
ghost use Rattle.versions.specs.declared.piece.Mark.TheVariants.{Dot};
ghost use Rattle.versions.specs.Order.{the_end, token_cmp, version_cmp};
ghost use Rattle.versions.specs.Pieces.{changes, pieces};
ghost use Rattle.versions.specs.Tokens.{normal, tokens, trimmed};

use crate::cut::{Cut, compare, is_null};
use crate::kind::Kind;
use crate::piece::{Mark, first_piece};
use crate::token::cut;
use mvn_shared::{Mem, Text};
use std::alloc::{AllocError, Global};
use std::cmp::Ordering;
use std::fmt;
use std::marker::Model;

/// A version. Contracts see it as its text; versions compare by their tokens, so that `1.0` and `1` are one in the
/// order. POM Reference, "Version Order Specification".
#[derive(Drop)]
pub struct Version {
    text: Text,
    // the text, its ASCII letters in lower case
    folded: Vec<u8>,
    // the tokens, and the end
    cuts: Vec<Cut>,
}

impl Model for Version {
    ghost use Rattle.std.specs.Prelude.{◌≡◌, List, ℕ, map};
    ghost use Rattle.std.specs.Coded.{coded_list, coded_ℕ};

    ghost Value = { List ℕ };

    ghost coded = { coded_list coded_ℕ };

    ghost use Rattle.versions.specs.Cuts.{cut_token};
    ghost use Rattle.versions.specs.Order.{ended};

    ghost view = { λ v. v.text };

    ghost invariant = { λ v. map (cut_token v.folded.items) v.cuts.items ≡ ended v.text };
}

// Takes the null tokens at the end away.
fn strip(text: &[u8], cuts: &mut Vec<Cut>)
    ensures { map (cut_token text.now) cuts.new.items
        ≡ stripped (map (cut_token text.now) cuts.old.items) }
{
    while let Some(last) = cuts.last() {
        if !is_null(text, *last) {
            break;
        }
        cuts.pop();
    }
}

// One token more.
fn add(text: &[u8], cuts: &mut Vec<Cut>, cut: Cut) -> Mem<()>
    ensures { OnOk result
        (map (cut_token text.now) cuts.new.items
        ≡ added (map (cut_token text.now) cuts.old.items) (cut_token text.now cut)) }
{
    if cut.kind != Kind::DotNumber {
        strip(text, cuts);
    }
    cuts.push(cut)?;
    Ok(())
}

// Whether a piece is followed by a change, so that a digit follows a qualifier directly.
fn changes(next: Option<Mark>) -> bool
    ensures { result ≡ changes next }
{
    matches!(next, Some(Mark::Change))
}

// The tokens of a text in lower case, and the end.
fn cuts(alloc: Global, text: &[u8]) -> Mem<Vec<Cut>>
    ensures { IfOk result (λ cuts.
        map (cut_token text.now) cuts.items ≡ trimmed (tokens (pieces Dot text.now))
        ++ the_end ∷ []) }
{
    let mut cuts = Vec::new(alloc);
    let mut start = 0;
    let mut before = Some(Mark::Dot);
    while let Some(mark) = before {
        let first = first_piece(&text[start..]);
        let token = cut(text, start, first.len, mark, changes(first.next));
        add(text, &mut cuts, token)?;
        start += first.to;
        before = first.next;
    }
    strip(text, &mut cuts);
    cuts.push(Cut {
        kind: Kind::End,
        start: 0,
        len: 0,
    })?;
    Ok(cuts)
}

// How two lists of tokens compare: by the first tokens that differ.
fn order_cuts(text: &[u8], cuts: &[Cut], other_text: &[u8], others: &[Cut]) -> Ordering
    ensures { result
        ≡ slice_cmp token_cmp (map (cut_token text.now) cuts.now)
        (map (cut_token other_text.now) others.now) }
{
    let both = cuts.len().min(others.len());
    for at in 0..both {
        let order = compare(text, cuts[at], other_text, others[at]);
        if order.is_ne() {
            return order;
        }
    }
    cuts.len().cmp(&others.len())
}

impl Version {
    /// The version that a text spells: every text has one. Costs its length.
    pub fn parse(alloc: Global, text: &Text) -> Mem<Version>
        ensures { IfOk result (λ version. version ≡ text.now) }
    {
        let folded = text.as_bytes().to_ascii_lowercase(alloc)?;
        let cuts = cuts(alloc, &folded)?;
        let text = text.clone()?;
        Ok(Version { text, folded, cuts })
    }

    /// The text, as it was written.
    pub fn as_text(&self) -> &Text
        ensures { result.now ≡ self.now }
    {
        &self.text
    }

    /// How two versions compare: by their first tokens that differ. Costs one pass over what they have in common, and
    /// takes no memory. POM Reference, "Version Order Specification".
    pub fn order(&self, other: &Version) -> Ordering
        ensures value { result ≡ version_cmp self.now other.now }
        ensures equal { (result ≡ Equal) ↔ (normal self.now ≡ normal other.now) }
    {
        order_cuts(&self.folded, &self.cuts, &other.folded, &other.cuts)
    }
}

impl fmt::Display for Version {
    ghost use Rattle.std.specs.Prelude.{Some};

    ghost output = { λ version. Some version };

    fn fmt<W: fmt::Write>(&self, f: &mut fmt::Formatter<W>) -> fmt::Result {
        let text = &self.text;
        write!(f, "{text}")
    }
}

impl Clone for Version {
    ghost is_clone = { λ version copy. copy ≡ version };

    fn clone(&self) -> Result<Version, AllocError> {
        let text = self.text.clone()?;
        let folded = self.folded.clone()?;
        let cuts = self.cuts.clone()?;
        Ok(Version { text, folded, cuts })
    }
}

impl PartialEq for Version {
    ghost use Rattle.std.specs.Cmp.{partial_equiv_from_equiv};
    ghost use Rattle.versions.specs.Laws.{version_eq, version_eq_equiv};

    ghost eq = { version_eq };

    ghost laws = { partial_equiv_from_equiv version_eq_equiv };

    fn eq(&self, other: &Self) -> bool {
        self.order(other).is_eq()
    }
}

impl Eq for Version {
    ghost use Rattle.versions.specs.Laws.{version_eq_equiv};

    ghost laws = { version_eq_equiv };
}

impl PartialOrd for Version {
    ghost use Rattle.std.specs.Prelude.{Some};
    ghost use Rattle.std.specs.Cmp.{partial_order_from_total};
    ghost use Rattle.versions.specs.Laws.{version_cmp_total};
    ghost use Rattle.versions.specs.Order.{version_cmp};

    ghost partial_cmp = { λ x y. Some (version_cmp x y) };

    ghost laws = { partial_order_from_total version_cmp_total };

    fn partial_cmp(&self, other: &Self) -> Option<Ordering> {
        Some(self.order(other))
    }
}

impl Ord for Version {
    ghost use Rattle.std.proofs.Common.{refl};
    ghost use Rattle.versions.specs.Laws.{version_cmp_total};
    ghost use Rattle.versions.specs.Order.{version_cmp};

    ghost cmp = { version_cmp };

    ghost total = { version_cmp_total };

    ghost matches_partial_cmp = { λ x y. refl };

    ghost matches_eq = { λ x y. refl };

    fn cmp(&self, other: &Self) -> Ordering {
        self.order(other)
    }
}
