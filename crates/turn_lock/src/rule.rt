//! The rule that every step on the lock keeps.
use crate::Kept;
use crate::view::{About, Knows};
use atomic_table::TableRule;

// The words of the table: the next ticket, the ticket that is served, and the length of the history.
pub(crate) const TICKET: usize = 0;

pub(crate) const SERVING: usize = 1;

pub(crate) const COUNT: usize = 2;

// Its one slot, where the value is at home.
pub(crate) const SLOT: usize = 0;

pub(crate) struct ByTickets;

impl<V: Kept> TableRule<Option<V>, Knows<V::Item>, About<V>> for ByTickets {
    ghost use Rattle.std.specs.Prelude.{length};
    ghost use Rattle.turn_lock.specs.View.{newcomer};
    ghost use Rattle.turn_lock.specs.Tickets.{Turns};

    ghost holds = { λ about. Turns V.list about.rights (length (V.list about.value.value)) };

    ghost first = { λ about. newcomer about.rights (V.list about.value.value) };
}
