//! Which algorithms no cut node cuts off.
ghost use Rattle.std.specs.Prelude.{◌≡◌, IfOk};
ghost use Rattle.std.specs.List.{list_any};
ghost use Rattle.hive_model.specs.Below.{below_within, is_algorithm_below};
ghost use Rattle.hive_model.specs.Live.{cuts_algorithm, is_live};
ghost use Rattle.hive_model.specs.Reached.{is_leaf_of};

use crate::decision::{is_undecided, sequence_at, sequence_decision};
use hive_model::{Job, MOST_DEPTH, Member, Outcome, Sequence};
use std::alloc::{AllocError, Global};

// Whether the algorithm has a leaf below a sequence, over at most `depth` sequences one below the
// other.
fn has_leaf_within(sequences: &[Sequence], depth: u8, sequence: usize, number: usize) -> bool
    ensures { result
        ≡ list_any (is_leaf_of number) (below_within depth sequences.now (Member.Seq sequence)) }
{
    if depth == 0 {
        return false;
    }
    let Some(sequence) = sequence_at(sequences, sequence) else {
        return false;
    };
    for member in sequence.members() {
        let found = match member {
            Member::Alg(leaf) => usize::from(*leaf) == number,
            Member::Seq(below) => {
                has_leaf_within(sequences, depth - 1, usize::from(*below), number)
            }
        };
        if found {
            return true;
        }
    }
    false
}

// Whether the algorithm stands below a sequence.
#[tactic(auto, unfolding(hive_model::specs::Below::below))]
fn is_algorithm_below(job: &Job, sequence: usize, number: usize) -> bool
    ensures { result ≡ is_algorithm_below job.now sequence number }
{
    has_leaf_within(job.sequences(), MOST_DEPTH, sequence, number)
}

// Whether the sequence, of that place, cuts the algorithm off: it is a decided cut node above it.
fn cuts_algorithm(
    alloc: Global,
    job: &Job,
    outcomes: &[Option<Outcome>],
    place: usize,
    sequence: &Sequence,
    number: usize,
) -> Result<bool, AllocError>
    ensures { IfOk result (λ it.
        it ≡ cuts_algorithm job.now outcomes.now number (place, sequence.now)) }
{
    if !sequence.cut {
        return Ok(false);
    }
    if !is_algorithm_below(job, place, number) {
        return Ok(false);
    }
    let decision = sequence_decision(alloc, job, outcomes, place)?;
    Ok(!is_undecided(decision))
}

// Whether no cut node cuts the algorithm off.
#[tactic(auto, unfolding(hive_model::specs::Live::is_live))]
pub(crate) fn is_live(
    alloc: Global,
    job: &Job,
    outcomes: &[Option<Outcome>],
    number: usize,
) -> Result<bool, AllocError>
    ensures { IfOk result (λ it. it ≡ is_live job.now outcomes.now number) }
{
    for (place, sequence) in job.sequences().iter().enumerate() {
        if cuts_algorithm(alloc, job, outcomes, place, sequence, number)? {
            return Ok(false);
        }
    }
    Ok(true)
}
