//! Laws of reached places, which say what control flow reaches without its recursion. Each of these
//! functions does nothing: its contract is the law.
//!
//! Place i of a sequence, counted from 0, is that of its member i.
ghost use Rattle.std.specs.Prelude.{◌≡◌, ◌≢◌, ℕ, ◌<◌, true, List, Option, Some, slice_get};
ghost use Rattle.event_laws.specs.Places.{IsReachedPlace, LetsGoOn, is_reached_sequence};
ghost use Rattle.hive_model.specs.ControlFlow.{IsNestedWithin};
ghost use Rattle.hive_model.specs.Job.{Job};
ghost use Rattle.hive_model.specs.Reached.{is_reached, reached};
ghost use Rattle.hive_model.specs.Sequence.{Sequence};
ghost use Rattle.hive_model.specs.declared.outcome.Outcome.{Outcome};

use hive_model::{MOST_DEPTH, Member};

/// The top is reached. A reached node enters all its members, or where it is sequential, those
/// before which every member lets it go on.
pub fn what_a_reached_node_enters()
    ensures top { (job : Job) (ran : List (Option Outcome))
        → is_reached_sequence (reached job ran) job.top ≡ true }
    ensures enters { (job : Job) (ran : List (Option Outcome)) (s i : ℕ) (q : Sequence) (m : Member)
        → slice_get job.sequences s ≡ Some q → is_reached_sequence (reached job ran) s ≡ true
        → slice_get q.members i ≡ Some m
        → (q.sequential ≡ true → (j : ℕ) → j < i → LetsGoOn job ran q j)
        → IsReachedPlace job ran s i m }
    ensures members { (job : Job) (ran : List (Option Outcome)) (s i : ℕ) (m : Member)
        (place : IsReachedPlace job ran s i m) → slice_get place.node.members i ≡ Some m }
    ensures waits { (job : Job) (ran : List (Option Outcome)) (s i : ℕ) (m : Member)
        (place : IsReachedPlace job ran s i m) → place.node.sequential ≡ true
        → (j : ℕ) → j < i → LetsGoOn job ran place.node j }
{}

/// A member that stands at a reached place is reached, and what is reached stands at a reached
/// place, but for the top.
pub fn places_of_what_is_reached()
    ensures algorithms { (job : Job) (ran : List (Option Outcome)) (s i number : ℕ)
        → IsNestedWithin MOST_DEPTH job.sequences (Member.Seq job.top)
        → IsReachedPlace job ran s i (Member.Alg number)
        → is_reached (reached job ran) number ≡ true }
    ensures sequences { (job : Job) (ran : List (Option Outcome)) (s i number : ℕ)
        → IsNestedWithin MOST_DEPTH job.sequences (Member.Seq job.top)
        → IsReachedPlace job ran s i (Member.Seq number)
        → is_reached_sequence (reached job ran) number ≡ true }
    ensures algorithms_stand { (job : Job) (ran : List (Option Outcome)) (number : ℕ)
        → is_reached (reached job ran) number ≡ true
        → (s i : ℕ) × IsReachedPlace job ran s i (Member.Alg number) }
    ensures sequences_stand { (job : Job) (ran : List (Option Outcome)) (number : ℕ)
        → number ≢ job.top → is_reached_sequence (reached job ran) number ≡ true
        → (s i : ℕ) × IsReachedPlace job ran s i (Member.Seq number) }
{}
