//! The members that are algorithms.
ghost use Rattle.std.specs.Prelude.{◌≡◌, length, nat_lt};
ghost use Rattle.hive_model.specs.declared.limits.TheConstants.{MOST_LEAVES};
ghost use Rattle.text_model.specs.Forest.{all_of, leaves_in};
ghost use Rattle.control_tree.specs.Members.{lists};

use hive_model::{MOST_LEAVES, Many, Member};

// Whether over 1,024 members of all sequences together are algorithms.
pub(crate) fn has_too_many_leaves(members: &[Many<Member>]) -> bool
    ensures { result ≡ nat_lt MOST_LEAVES (length (leaves_in (all_of (lists members.now)))) }
{
    let mut count: usize = 0;
    for of_one in members {
        count = count.saturating_add(leaf_count(of_one.as_slice()));
    }
    count > MOST_LEAVES
}

fn leaf_count(members: &[Member]) -> usize
    ensures { result ≡ length (leaves_in members.now) }
{
    let mut count = 0;
    for member in members {
        match member {
            Member::Alg(_) => count += 1,
            Member::Seq(_) => {}
        }
    }
    count
}
