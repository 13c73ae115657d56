//! Handles with their producers and consumers, by number.
ghost use Rattle.std.specs.Prelude.{◌≡◌, ◌<◌, length, slice_get, Some};
ghost use Rattle.text_model.specs.Names.{number_of as number_among};

use graph_parts::Names;
use std::marker::Model;

/// The data handles, raw ones first and then the outputs, algorithm by algorithm, with the algorithm that produces each
/// and those that take it.
///
/// Contracts see the names, the producers and the consumers, each as a list in handle order.
#[derive(Debug, Drop)]
pub struct Graph {
    pub(crate) names: Names,
    pub(crate) producers: Vec<Option<u16>>,
    pub(crate) consumers: Vec<Vec<u16>>,
}

impl Model for Graph {
    ghost use Rattle.text_model.specs.Producers.{Graph as Shown};
    ghost use Rattle.producer_graph.specs.Lists.{items};
    ghost use Rattle.producer_graph.specs.Sizes.{HasSizes};

    ghost Value = { Shown };

    ghost view = { λ it. record { names = it.names; producers = it.producers.items; consumers = items it.consumers.items } };

    ghost invariant = { λ it. HasSizes it.names it.producers.items it.consumers.items };
}

impl Graph {
    /// How many handles there are.
    pub fn len(&self) -> u16
        ensures { result ≡ length self.now.names }
    {
        self.names.len() as u16
    }

    /// The number of the algorithm that produces a handle; `None` exactly for a raw one.
    pub fn producer(&self, handle: u16) -> Option<u16>
        requires { handle < length self.now.names }
        ensures { slice_get self.now.producers handle ≡ Some result }
    {
        self.producers[handle as usize]
    }

    /// The numbers of the algorithms that take a handle, in written order.
    pub fn consumers(&self, handle: u16) -> &[u16]
        requires { handle < length self.now.names }
        ensures { slice_get self.now.consumers handle ≡ Some result.now }
    {
        self.consumers[handle as usize].as_slice()
    }

    /// The number of the handle of that name; `None` exactly where no handle has it.
    pub fn number(&self, name: &str) -> Option<u16>
        ensures { result ≡ number_among self.now.names name.now }
    {
        let number = self.names.number_of(name)?;
        Some(number as u16)
    }
}
