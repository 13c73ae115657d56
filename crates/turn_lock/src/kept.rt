//! What the lock asks of the value behind it.
ghost use Rattle.std.specs.Prelude.{◌≡◌, ◌^◌, ◌<◌, List, length};

/// A value that keeps a list of items, oldest first, to which holders of a [`Turn`](crate::Turn) add.
pub trait Kept {
    /// What stands in the list. No value of it need be made at run time.
    type Item;

    /// The value's history: all items that it keeps.
    ghost list: { Self → List Self.Item };

    /// How many items the value keeps.
    fn items(&self) -> u64
        requires { length (list self.now) < 2 ^ 64 }
        ensures { result ≡ length (list self.now) };
}
