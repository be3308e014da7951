//! A list of exclusions in parts, of which all but the last are shared.

ghost use Rattle.std.specs.Prelude.{◌≡◌, ◌≢◌, ◌↔◌, ◌++◌, [], IsTrue};

use model_types::Exclusion;
use mvn_shared::List;
use std::marker::Model;
use std::sync::Arc;

// Exclusions in parts, of which all but the last are shared. Contracts see the whole list.
#[cycle(chain)]
pub struct Chain {
    pub(crate) link: Link,
}

// The last part, after the parts before it.
#[cycle(chain)]
#[derive(Drop)]
pub enum Link {
    First(List<Exclusion>),
    Behind(Arc<Chain>, List<Exclusion>),
}

impl Model for Chain {
    ghost use Rattle.std.specs.Prelude as logic;
    ghost use Rattle.std.specs.Coded.{codes};
    ghost use Rattle.model_types.specs.declared.dependency.Exclusion as rows;

    ghost Value = { logic.List rows.Exclusion };

    ghost coded = { Prim.hlevel (codes) };

    ghost use Rattle.collector.specs.Chains.{IsLink, linked};

    ghost view = { λ chain. linked chain.link };

    ghost invariant = { λ chain. IsLink chain.link };

    ghost size = { logic.length };

    ghost use Rattle.collector.specs.Falls.{falls};

    ghost size_decreases = { λ chain h. falls chain.link h };
}

// A loop, so that many parts need no more room than one.
impl Drop for Chain {
    fn drop(mut self) {
        loop {
            match self {
                Chain {
                    link: Link::First(_),
                } => return,
                Chain {
                    link: Link::Behind(above, _),
                } => match Arc::into_inner(above) {
                    None => return,
                    Some(above) => self = above,
                },
            }
        }
    }
}

impl Chain {
    // One part.
    pub(crate) fn of(own: List<Exclusion>) -> Chain
        ensures { result ≡ own }
    {
        Chain {
            link: Link::First(own),
        }
    }

    // One part more.
    pub(crate) fn behind(above: Arc<Chain>, own: List<Exclusion>) -> Chain
        requires { own ≢ [] }
        ensures { result ≡ above.value ++ own }
    {
        Chain {
            link: Link::Behind(above, own),
        }
    }

    // Whether there is no exclusion.
    pub(crate) fn is_empty(&self) -> bool
        ensures { IsTrue result ↔ (self.now ≡ []) }
    {
        match &self.link {
            Link::First(own) => own.is_empty(),
            Link::Behind(_, _) => false,
        }
    }
}
