//! Places of members, and lists of them by number.
ghost use Rattle.std.specs.Prelude.{◌≡◌, ◌<◌, [], ◌∷◌, ◌++◌, IfOk, OnOk, length, replicate, slice_index_or, slice_set};

use hive_model::Many;
use std::alloc::{AllocError, Global};
use std::marker::Model;

/// A place where a member stands: that place, counted from 0, of that sequence.
#[derive(Clone, Copy, Debug)]
pub(crate) struct Edge {
    pub(crate) sequence: u16,
    pub(crate) place: usize,
}

/// For each number a list of places.
#[derive(Drop)]
pub(crate) struct Places {
    lists: Vec<Many<Edge>>,
}

impl Model for Places {
    ghost use Rattle.std.specs.Prelude.{List, map};
    ghost use Rattle.decision_nodes.specs.Index.{items_of};
    ghost use Rattle.decision_nodes.specs.declared.edge.Edge.{Edge};

    ghost Value = { List (List Edge) };

    ghost view = { λ it. items_of it.lists.items };
}

impl Places {
    /// An empty list for each number below `count`. The only error is running out of memory.
    pub(crate) fn new(alloc: Global, count: usize) -> Result<Places, AllocError>
        ensures { IfOk result (λ it. it ≡ replicate count []) }
    {
        let mut lists = Vec::with_capacity(alloc, count)?;
        for _number in 0..count {
            lists.push(Many::new(alloc))?;
        }
        Ok(Places { lists })
    }

    /// How many lists there are.
    pub(crate) fn len(&self) -> usize
        ensures { result ≡ length self.now }
    {
        self.lists.len()
    }

    /// The places of that number.
    pub(crate) fn at(&self, number: usize) -> &[Edge]
        requires { number < length self.now }
        ensures { result.now ≡ slice_index_or self.now number [] }
    {
        self.lists[number].as_slice()
    }

    /// Adds a place. The only error is running out of memory.
    pub(crate) fn add(&mut self, number: usize, edge: Edge) -> Result<(), AllocError>
        requires { number < length self.old }
        ensures { OnOk result
            (self.new ≡ slice_set self.old number (slice_index_or self.old number [] ++ edge ∷ [])) }
    {
        let list = &mut self.lists[number];
        match list.push(edge) {
            Ok(()) => Ok(()),
            Err((_, error)) => Err(error),
        }
    }
}
