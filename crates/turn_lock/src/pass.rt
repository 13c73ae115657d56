//! A participant's handle on the lock.
ghost use Rattle.std.specs.Prelude.{◌≡◌, ◌<◌, All, length};

use crate::Kept;
use crate::view::Knows;
use atomic_table::Seat;

/// The right to use a [`Turn`](crate::Turn), for one thread at a time.
///
/// Contracts see which prefix of the history it has seen (`seen`), the positions from 0 of the items that it
/// added (`own`), and how many rights it has. With the rights of all passes together the lock is closed, so a
/// pass that is dropped keeps its lock from ever being closed.
#[derive(Drop)]
pub struct TurnPass<V: Kept> {
    pub(crate) seat: Seat<Option<V>, Knows<V::Item>>,
    pub(crate) rights: u32,
    // While it holds the value: how many items the value had when it came.
    pub(crate) count: u64,
    ghost rights_are: { rights ≡ seat.me.0.rights },
    ghost some: { 0 < rights },
    // Its own items are among those that it has seen.
    pub ghost inside: { All (λ p. p < length seat.me.0.seen) seat.me.0.own },
}

impl<V: Kept> TurnPass<V> {
    ghost use Rattle.turn_lock.specs.Pass.{rights_of};

    /// How many rights the pass has, at least one. Each split takes one of them.
    pub fn rights(&self) -> u32
        ensures { result ≡ rights_of self.now }
    {
        self.rights
    }
}
