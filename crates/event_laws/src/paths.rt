//! Laws of how sequences stand one below the other.
ghost use Rattle.std.specs.Prelude.{ℕ, ◌<◌, List, length};
ghost use Rattle.event_laws.specs.Forest.{HasAllMembers};
ghost use Rattle.hive_model.specs.ControlFlow.{HasMember, IsNestedWithin};
ghost use Rattle.hive_model.specs.Paths.{HasNoCycle, IsAtMostDeep};
ghost use Rattle.hive_model.specs.Sequence.{Sequence};

use hive_model::Member;

/// Where each sequence is nested within a depth, all members are there, no sequence is below itself, and
/// each is at most so deep.
pub fn nested_sequences()
    ensures members { (depth : ℕ) (sequences : List Sequence)
        → ((s : ℕ) → s < length sequences → IsNestedWithin depth sequences (Member.Seq s))
        → HasAllMembers sequences }
    ensures acyclic { (depth : ℕ) (sequences : List Sequence)
        → ((s : ℕ) → s < length sequences → IsNestedWithin depth sequences (Member.Seq s))
        → HasNoCycle (HasMember sequences) }
    ensures depth { (depth : ℕ) (sequences : List Sequence) (s : ℕ) → IsNestedWithin depth sequences (Member.Seq s)
        → IsAtMostDeep (HasMember sequences) depth s }
{}

/// Where all members are there, a sequence that is at most so deep is nested within that depth.
pub fn shallow_sequences()
    ensures { (depth : ℕ) (sequences : List Sequence) → HasAllMembers sequences
        → (s : ℕ) → s < length sequences → IsAtMostDeep (HasMember sequences) depth s
        → IsNestedWithin depth sequences (Member.Seq s) }
{}
