//! The job that an options text describes.
ghost use Rattle.std.specs.Prelude.{◌≡◌, ◌<◌, ◌^◌, Some, length, slice_get};
ghost use Rattle.std.specs.List.{flat_map};
ghost use Rattle.hive_model.specs.Handles.{handle_count, kind_of, output_kinds};

use crate::{Algorithm, Kind, Many, Raw, Resource, Sequence};
use std::marker::Model;

/// Everything that is the same for all events: what is read, what is computed, and how it is decided.
///
/// Raw handles are numbered first, then the outputs, algorithm by algorithm
/// (docs/PROCESSING.md, "Handles").
#[derive(Debug, Drop)]
pub struct Job {
    pub raws: Many<Raw>,
    pub resources: Many<Resource>,
    pub algorithms: Many<Algorithm>,
    pub sequences: Many<Sequence>,
    /// The number, from 0, of the sequence at the top.
    pub top: u16,
}

impl Model for Job {
    ghost use Rattle.hive_model.specs.Job.{Job as Shown};

    ghost Value = { Shown };

    ghost view = { λ it. record { raws = it.raws.items; resources = it.resources.items; algorithms = it.algorithms.items; sequences = it.sequences.items; top = it.top } };
}

impl Job {
    /// The raw handles, in written order.
    pub fn raws(&self) -> &[Raw]
        ensures { result.now ≡ self.now.raws }
    {
        self.raws.as_slice()
    }

    /// The algorithms, in written order.
    pub fn algorithms(&self) -> &[Algorithm]
        ensures { result.now ≡ self.now.algorithms }
    {
        self.algorithms.as_slice()
    }

    /// The sequences, in written order.
    pub fn sequences(&self) -> &[Sequence]
        ensures { result.now ≡ self.now.sequences }
    {
        self.sequences.as_slice()
    }

    /// The number of handles, raw ones and outputs.
    pub fn handles(&self) -> u16
        requires { handle_count self.now < 2 ^ 16 }
        ensures { result ≡ handle_count self.now }
    {
        let raws = self.raws();
        let outputs = count_outputs(self.algorithms());
        raws.len() as u16 + outputs
    }

    /// The kind of a handle.
    pub fn kind_of(&self, handle: u16) -> Kind
        requires few { handle_count self.now < 2 ^ 16 }
        requires there { handle < handle_count self.now }
        ensures { kind_of self.now handle ≡ Some result }
    {
        let raws = self.raws();
        let place = usize::from(handle);
        if place < raws.len() {
            raws[place].kind
        } else {
            kind_of_output(self.algorithms(), place - raws.len())
        }
    }
}

fn count_outputs(algorithms: &[Algorithm]) -> u16
    requires { length (flat_map output_kinds algorithms.now) < 2 ^ 16 }
    ensures { result ≡ length (flat_map output_kinds algorithms.now) }
{
    let mut count = 0;
    for algorithm in algorithms {
        count += algorithm.outputs().len() as u16;
    }
    count
}

fn kind_of_output(algorithms: &[Algorithm], place: usize) -> Kind
    requires { place < length (flat_map output_kinds algorithms.now) }
    ensures { slice_get (flat_map output_kinds algorithms.now) place ≡ Some result }
{
    let mut rest = place;
    for algorithm in algorithms {
        let outputs = algorithm.outputs();
        if rest < outputs.len() {
            return outputs[rest].kind;
        }
        rest -= outputs.len();
    }
    unreachable!()
}

impl PartialEq for Job {
    ghost use Rattle.std.specs.Prelude.{nat_eq};
    ghost use Rattle.std.specs.Cmp.{and_equiv, nat_eq_equiv, on_equiv, partial_equiv_from_equiv};
    ghost use Rattle.std.specs.Cmp.Lexicographic.{lists_equiv, pointwise};
    ghost use Rattle.std.specs.Ordering.{eq_of_both, on};
    ghost use Rattle.hive_model.specs.contracts.algorithm.RawEq.TheImpl.Laws.{laws-law as raw_law};
    ghost use Rattle.hive_model.specs.contracts.algorithm.ResourceEq.TheImpl.Laws.{laws-law as resource_law};
    ghost use Rattle.hive_model.specs.contracts.algorithm.AlgorithmEq.TheImpl.Laws.{laws-law as algorithm_law};
    ghost use Rattle.hive_model.specs.contracts.sequence.SequenceEq.TheImpl.Laws.{laws-law as sequence_law};

    ghost eq = { eq_of_both (on (λ it. it.raws) (pointwise ⟦<Raw as PartialEq>⟧.eq)) (eq_of_both (on (λ it. it.resources) (pointwise ⟦<Resource as PartialEq>⟧.eq)) (eq_of_both (on (λ it. it.algorithms) (pointwise ⟦<Algorithm as PartialEq>⟧.eq)) (eq_of_both (on (λ it. it.sequences) (pointwise ⟦<Sequence as PartialEq>⟧.eq)) (on (λ it. it.top) nat_eq)))) };

    ghost laws = { partial_equiv_from_equiv (and_equiv (on_equiv (λ it. it.raws) (lists_equiv raw_law)) (and_equiv (on_equiv (λ it. it.resources) (lists_equiv resource_law)) (and_equiv (on_equiv (λ it. it.algorithms) (lists_equiv algorithm_law)) (and_equiv (on_equiv (λ it. it.sequences) (lists_equiv sequence_law)) (on_equiv (λ it. it.top) nat_eq_equiv))))) };

    fn eq(&self, other: &Self) -> bool {
        self.raws() == other.raws()
            && self.resources.as_slice() == other.resources.as_slice()
            && self.algorithms() == other.algorithms()
            && self.sequences() == other.sequences()
            && self.top == other.top
    }
}

impl Eq for Job {
    ghost use Rattle.std.specs.Cmp.{and_equiv, nat_eq_equiv, on_equiv};
    ghost use Rattle.std.specs.Cmp.Lexicographic.{lists_equiv};
    ghost use Rattle.hive_model.specs.contracts.algorithm.RawEq.TheImpl.Laws.{laws-law as raw_law};
    ghost use Rattle.hive_model.specs.contracts.algorithm.ResourceEq.TheImpl.Laws.{laws-law as resource_law};
    ghost use Rattle.hive_model.specs.contracts.algorithm.AlgorithmEq.TheImpl.Laws.{laws-law as algorithm_law};
    ghost use Rattle.hive_model.specs.contracts.sequence.SequenceEq.TheImpl.Laws.{laws-law as sequence_law};

    ghost laws = { and_equiv (on_equiv (λ it. it.raws) (lists_equiv raw_law)) (and_equiv (on_equiv (λ it. it.resources) (lists_equiv resource_law)) (and_equiv (on_equiv (λ it. it.algorithms) (lists_equiv algorithm_law)) (and_equiv (on_equiv (λ it. it.sequences) (lists_equiv sequence_law)) (on_equiv (λ it. it.top) nat_eq_equiv)))) };
}
