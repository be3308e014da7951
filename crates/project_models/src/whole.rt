//! Calls of a source, all together.

ghost use Rattle.profiles.specs.Judging.{TellsOn};

use model_resolver::ModelResolver;
use mvn_outside::{Remote, Shelf, Tree};
use pom_source::PomSource;

/// A source of POMs that tells after some calls what it tells after one.
pub trait Whole: PomSource {
    ghost whole: { (before now : Self) → TellsOn Self.tells_same before now → Self.tells_same before now };
}

impl<'t, 's, 'r, 'p, T: Tree, S: Shelf, R: Remote> Whole
    for ModelResolver<'t, 's, 'r, 'p, T, S, R> {
    ghost use Rattle.model_resolver.specs.Composing.{told_whole};

    ghost whole = { λ before now told. told_whole T.files T.faults S.told S.faults R.files R.faults told };
}
