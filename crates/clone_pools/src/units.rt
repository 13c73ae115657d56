//! The units of resources that are left.
ghost use Rattle.std.specs.Prelude.{◌≡◌, ℕ, ◌+◌, ◌<◌, All, true, length, slice_index};
ghost use Rattle.std.specs.List.{list_all};
ghost use Rattle.hive_model.specs.Valid.{AreDistinctNumbers};
ghost use Rattle.clone_pools.specs.Units.{has_left, named};

/// Whether each of these resources has a unit left.
pub(crate) fn has_units(left: &[u8], resources: &[u16]) -> bool
    requires { All (λ r. r < length left.now) resources.now }
    ensures { result ≡ list_all (has_left left.now) resources.now }
{
    for resource in resources {
        if left[usize::from(*resource)] == 0 {
            return false;
        }
    }
    true
}

/// Takes one unit of each of these resources.
pub(crate) fn take_units(left: &mut Vec<u8>, resources: &[u16])
    requires within { All (λ r. r < length left.old.items) resources.now }
    requires differ { AreDistinctNumbers resources.now }
    requires there { list_all (has_left left.old.items) resources.now ≡ true }
    ensures length { length left.new.items ≡ length left.old.items }
    ensures units { (r : ℕ)
        → slice_index left.new.items r + named r resources.now ≡ slice_index left.old.items r }
{
    for resource in resources {
        left[usize::from(*resource)] -= 1;
    }
}

/// Puts one unit of each of these resources back.
pub(crate) fn give_units(left: &mut Vec<u8>, resources: &[u16])
    requires within { All (λ r. r < length left.old.items) resources.now }
    requires differ { AreDistinctNumbers resources.now }
    requires room { (r : ℕ) → slice_index left.old.items r + named r resources.now < 256 }
    ensures length { length left.new.items ≡ length left.old.items }
    ensures units { (r : ℕ)
        → slice_index left.new.items r ≡ slice_index left.old.items r + named r resources.now }
{
    for resource in resources {
        left[usize::from(*resource)] += 1;
    }
}
