//! The forest of sequences, by number.
ghost use Rattle.std.specs.Prelude.{◌≡◌, ◌<◌, length, slice_get, Some};

use hive_model::{Many, Member};
use std::marker::Model;

/// The members of each sequence, and which sequence is the top.
///
/// Contracts see the members as lists, in the order of the sequences' numbers, and the top's number.
#[derive(Debug, Drop)]
pub struct Tree {
    pub(crate) members: Vec<Many<Member>>,
    pub(crate) top: u16,
}

impl Model for Tree {
    ghost use Rattle.text_model.specs.Forest.{Forest as Shown};
    ghost use Rattle.control_tree.specs.Members.{lists};
    ghost use Rattle.std.specs.Prelude.{◌≤◌, length};
    ghost use Rattle.hive_model.specs.declared.limits.TheConstants.{MOST_SEQUENCES};

    ghost Value = { Shown };

    ghost view = { λ it. record { members = lists it.members.items; top = it.top } };

    ghost invariant = { λ it. length it.members.items ≤ MOST_SEQUENCES };
}

impl Tree {
    /// How many sequences there are.
    pub fn len(&self) -> u16
        ensures { result ≡ length self.now.members }
    {
        self.members.len() as u16
    }

    /// The members of a sequence, in written order.
    pub fn members(&self, sequence: u16) -> &[Member]
        requires { sequence < length self.now.members }
        ensures { slice_get self.now.members sequence ≡ Some result.now }
    {
        self.members[sequence as usize].as_slice()
    }

    /// The number of the sequence at the top.
    pub fn top(&self) -> u16
        ensures { result ≡ self.now.top }
    {
        self.top
    }
}
