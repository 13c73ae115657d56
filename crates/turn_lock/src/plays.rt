//! What each step on the lock's words tells its pass (`specs/Steps`). These types are for the proofs alone.
ghost use Rattle.turn_lock.specs.Steps.{Drew, Looked, Raised, PassedOn, split_left, split_right, joined, spent};

use crate::Kept;
use crate::view::Knows;
use atomic_table::{Join, Play, Split};

pub(crate) struct Draw;

impl<V: Kept> Play<Option<V>, Knows<V::Item>> for Draw {
    ghost then = { Drew };
}

pub(crate) struct Look;

impl<V: Kept> Play<Option<V>, Knows<V::Item>> for Look {
    ghost then = { Looked V.list };
}

pub(crate) struct Raise;

impl<V: Kept> Play<Option<V>, Knows<V::Item>> for Raise {
    ghost then = { Raised V.list };
}

pub(crate) struct PassOn;

impl<V: Kept> Play<Option<V>, Knows<V::Item>> for PassOn {
    ghost then = { PassedOn };
}

// One right goes to a new pass.
pub(crate) struct Cut;

impl<I> Split<Knows<I>> for Cut {
    ghost left = { split_left };

    ghost right = { split_right };
}

// All that the second pass has goes to the first.
pub(crate) struct Glue;

impl<I> Join<Knows<I>> for Glue {
    ghost both = { joined };

    ghost spent = { spent };
}
