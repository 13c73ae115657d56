//! What is reached.
ghost use Rattle.std.specs.Prelude.{◌≡◌, false};
ghost use Rattle.decision_nodes.specs.Marks.{Adds, IsSmall, marked};

use hive_model::Member;
use number_set::NumberSet;

/// The members that control flow has reached.
#[derive(Clone, Copy, Debug)]
pub(crate) struct Marks {
    pub(crate) algorithms: NumberSet,
    pub(crate) sequences: NumberSet,
}

impl Marks {
    pub(crate) fn new() -> Marks
        ensures { (m : Member) → marked result m ≡ false }
    {
        Marks {
            algorithms: NumberSet::new(),
            sequences: NumberSet::new(),
        }
    }

    pub(crate) fn has_sequence(&self, sequence: u16) -> bool
        requires { IsSmall (Member.Seq sequence) }
        ensures { result ≡ marked self.now (Member.Seq sequence) }
    {
        self.sequences.contains(sequence)
    }

    pub(crate) fn mark(&mut self, member: Member)
        requires { IsSmall member }
        ensures { Adds (marked self.old) member (marked self.new) }
    {
        match member {
            Member::Alg(number) => self.algorithms.insert(number),
            Member::Seq(number) => self.sequences.insert(number),
        }
    }
}
