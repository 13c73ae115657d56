//! Laws of decisions and of what is reached, one sequence deep.
ghost use Rattle.std.specs.Prelude.{◌≡◌, ℕ, ◌<◌, Bool, List, Option, Some, [], ◌∷◌, length, map, slice_get, true, false, ◌↔◌};
ghost use Rattle.std.specs.List.{flat_map};
ghost use Rattle.event_laws.specs.Entering.{Enters, EntersByRule};
ghost use Rattle.hive_model.specs.ControlFlow.{IsNestedWithin};
ghost use Rattle.hive_model.specs.Decision.{before_flags, concurrent, decision, ignored, inverted, neutral, node_decision, sequential, strict};
ghost use Rattle.hive_model.specs.Job.{Job};
ghost use Rattle.hive_model.specs.Reached.{entered, reached_within};
ghost use Rattle.hive_model.specs.Sequence.{Sequence};
ghost use Rattle.hive_model.specs.declared.decision.Decision.{Decision};
ghost use Rattle.hive_model.specs.declared.outcome.Outcome.{Outcome};
ghost use Rattle.hive_model.specs.declared.sequence.Member.{Member};

use hive_model::{Decision, MOST_DEPTH, Member};

/// The decision of a sequence is its node's over its members' decisions: how deep it stands doesn't matter.
pub fn decision_of_a_sequence()
    ensures { (job : Job) (ran : List (Option Outcome)) (s : ℕ) (q : Sequence)
        → IsNestedWithin MOST_DEPTH job.sequences (Member.Seq s)
        → slice_get job.sequences s ≡ Some q
        → decision job ran (Member.Seq s) ≡ node_decision q (map (decision job ran) q.members) }
{}

/// From a reached sequence on, the members that it enters are reached, and what is reached from there.
pub fn reached_from_a_sequence()
    ensures { (job : Job) (decide : Member → Decision) (s : ℕ) (q : Sequence)
        → IsNestedWithin MOST_DEPTH job.sequences (Member.Seq s)
        → slice_get job.sequences s ≡ Some q
        → reached_within MOST_DEPTH job.sequences decide (Member.Seq s)
        ≡ Member.Seq s ∷ flat_map (reached_within MOST_DEPTH job.sequences decide) (entered q (map decide q.members)) }
{}

/// A member is entered exactly where the node is concurrent, or where each member before it is decided and, in
/// a short-circuit node, none of them fixes the node.
pub fn entered_members()
    ensures { (q : Sequence) (decisions : List Decision) (number : ℕ) → length decisions ≡ length q.members
        → number < length q.members → Enters q decisions number ↔ EntersByRule q decisions number }
{}

/// The table of nodes by examples with undecided members, an AND first and then an OR.
pub fn node_table()
    ensures strict_waits { strict false (Decision.False ∷ Decision.Undecided ∷ []) ≡ Decision.Undecided }
    ensures concurrent_decides { concurrent false (Decision.Undecided ∷ Decision.False ∷ []) ≡ Decision.False }
    ensures concurrent_waits { concurrent false (Decision.True ∷ Decision.Undecided ∷ []) ≡ Decision.Undecided }
    ensures sequential_waits { sequential false (Decision.Undecided ∷ Decision.False ∷ []) ≡ Decision.Undecided }
    ensures sequential_decides { sequential false (Decision.False ∷ Decision.Undecided ∷ []) ≡ Decision.False }
    ensures strict_or_waits { strict true (Decision.True ∷ Decision.Undecided ∷ []) ≡ Decision.Undecided }
    ensures concurrent_or_decides { concurrent true (Decision.Undecided ∷ Decision.True ∷ []) ≡ Decision.True }
    ensures sequential_or_waits { sequential true (Decision.False ∷ Decision.Undecided ∷ Decision.True ∷ []) ≡ Decision.Undecided }
{}

/// A node without members has its neutral value, whatever its kind.
pub fn empty_nodes()
    ensures strict { (mode_or : Bool) → strict mode_or [] ≡ neutral mode_or }
    ensures concurrent { (mode_or : Bool) → concurrent mode_or [] ≡ neutral mode_or }
    ensures sequential { (mode_or : Bool) → sequential mode_or [] ≡ neutral mode_or }
    ensures and { neutral false ≡ Decision.True }
    ensures or { neutral true ≡ Decision.False }
{}

/// `invert` swaps the values and then `ignore_filter` makes both true; what is undecided stays.
pub fn node_flags()
    ensures inverts_true { inverted true Decision.True ≡ Decision.False }
    ensures inverts_false { inverted true Decision.False ≡ Decision.True }
    ensures ignores_false { ignored true Decision.False ≡ Decision.True }
    ensures ignores_true { ignored true Decision.True ≡ Decision.True }
    ensures inverted_waits { inverted true Decision.Undecided ≡ Decision.Undecided }
    ensures ignored_waits { ignored true Decision.Undecided ≡ Decision.Undecided }
    ensures ignores_last { (q : Sequence) (decisions : List Decision) → q.invert ≡ true → q.ignore_filter ≡ true
        → before_flags q decisions ≡ Decision.True → node_decision q decisions ≡ Decision.True }
{}
