// The rule of the table, and what each step tells.
ghost use Rattle.turn_lock.specs.Turns.{first_view, joined, left_of, right_of, spent};
ghost use Rattle.turn_lock.specs.Rule.{IsTurned, asked, gave, looked, took};

use crate::kept::Kept;
use crate::view::View;
use atomic_table::{Join, Play, Split, TableRule};
use std::marker::PhantomData;
use std::snapshot::Snapshot;

/// The rule of a turn lock.
pub struct TurnRule<V> {
    marker: PhantomData<V>,
}

impl<V: Kept> TableRule<Option<V>, View<V::Fixed, V::Entry>, Snapshot<V>> for TurnRule<V> {
    ghost holds = { λ key. IsTurned V.fixed V.log V.count V.role };

    ghost first = { λ key. first_view (V.log key.value) (V.fixed key.value) (V.count key.value) };
}

pub(crate) struct Take<V> {
    marker: PhantomData<V>,
}

impl<V: Kept> Play<Option<V>, View<V::Fixed, V::Entry>> for Take<V> {
    ghost then = { took V.fixed V.log V.count V.role };
}

pub(crate) struct Give<V> {
    marker: PhantomData<V>,
}

impl<V: Kept> Play<Option<V>, View<V::Fixed, V::Entry>> for Give<V> {
    ghost then = { gave V.fixed V.log V.count V.role };
}

pub(crate) struct Look<V> {
    marker: PhantomData<V>,
}

impl<V: Kept> Play<Option<V>, View<V::Fixed, V::Entry>> for Look<V> {
    ghost then = { looked V.fixed V.log V.count V.role };
}

pub(crate) struct Ask<V> {
    marker: PhantomData<V>,
}

impl<V: Kept> Play<Option<V>, View<V::Fixed, V::Entry>> for Ask<V> {
    ghost then = { asked V.fixed V.log V.count V.role };
}

pub(crate) struct Halves;

impl<F, E> Split<View<F, E>> for Halves {
    ghost left = { left_of };

    ghost right = { right_of };
}

impl<F, E> Join<View<F, E>> for Halves {
    ghost both = { joined };

    ghost spent = { spent };
}
