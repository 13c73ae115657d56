//! Laws of valid jobs: what makes one valid, and what follows.
ghost use Rattle.std.specs.Prelude.{◌≡◌, Some};
ghost use Rattle.std.specs.List.{AllByRecursion};
ghost use Rattle.event_laws.specs.Examples.{sum_and_cut, three_and_four, cut_or, own_member, own_output, too_deep, tower};
ghost use Rattle.event_laws.specs.Forward.{TakesForward};
ghost use Rattle.event_laws.specs.Uncut.{HasNoCut};
ghost use Rattle.hive_model.specs.Algorithm.{Algorithm};
ghost use Rattle.hive_model.specs.ControlFlow.{IsNestedWithin};
ghost use Rattle.hive_model.specs.Cut.{AreCutsClosed};
ghost use Rattle.hive_model.specs.DataFlow.{Takes};
ghost use Rattle.hive_model.specs.Fits.{Fits};
ghost use Rattle.hive_model.specs.Job.{Job};
ghost use Rattle.hive_model.specs.Paths.{HasNoCycle};
ghost use Rattle.hive_model.specs.Runnable.{CanExecute, CanPerform, IsRunnable};
ghost use Rattle.hive_model.specs.Tree.{Tree, nodes_of, tree_of};
ghost use Rattle.hive_model.specs.Valid.{IsValidJob};

use hive_model::{MOST_DEPTH, Member};

/// The nodes of a tree give the tree back.
pub fn nodes_keep_the_tree()
    ensures { (t : Tree) → tree_of (nodes_of t) ≡ Some t }
{}

/// Every valid job has computable events, and each of its algorithms can be executed, also on a stack.
pub fn valid_is_runnable()
    ensures runnable { (job : Job) → IsValidJob job → IsRunnable job }
    ensures performs { (job : Job) → IsValidJob job → AllByRecursion CanPerform job.algorithms }
    ensures executes { (a : Algorithm) → CanPerform a → CanExecute a }
{}

/// Where each algorithm takes handles before its own alone, no data flow comes back to where it began.
pub fn forward_is_acyclic()
    ensures { (job : Job) → TakesForward job → HasNoCycle (Takes job) }
{}

/// A job without cut nodes owes nothing for them.
pub fn uncut_is_closed()
    ensures { (job : Job) → HasNoCut job → AreCutsClosed job }
{}

/// There are valid jobs, one with a cut node among them, and a record that fits. Sequences may be 64 deep.
pub fn some_are_valid()
    ensures plain { IsValidJob sum_and_cut }
    ensures fitting { Fits sum_and_cut three_and_four }
    ensures cut { IsValidJob cut_or }
    ensures deep { IsNestedWithin MOST_DEPTH (tower 63) (Member.Seq 0) }
{}

/// A sequence that is its own member, an algorithm that takes its own output, and sequences 65 deep are refused.
pub fn some_are_not()
    ensures own_member { IsValidJob own_member → ⊥ }
    ensures own_output { IsValidJob own_output → ⊥ }
    ensures too_deep { IsValidJob too_deep → ⊥ }
{}
