//! The limits of a job, of its slots, and of its products (docs/FORMATS.md, "Limits").

/// The most algorithms of a job.
pub const MOST_ALGORITHMS: usize = 1_024;

/// The most sequences of a job.
pub const MOST_SEQUENCES: usize = 256;

/// The most resources of a job.
pub const MOST_RESOURCES: usize = 64;

/// The most data handles of a job, raw ones and outputs together.
pub const MOST_HANDLES: usize = 1_024;

/// The most leaves of a job: the members of all its sequences that are algorithms.
pub const MOST_LEAVES: usize = 1_024;

/// The most sequences that stand one below the other.
pub const MOST_DEPTH: u8 = 64;

/// The most nodes of an expression.
pub const MOST_NODES: usize = 256;

/// The most numbers of a list product.
pub const MOST_NUMBERS: usize = 1_024;

/// The most instances of an algorithm.
pub const MOST_INSTANCES: u8 = 64;

/// The most units of a resource.
pub const MOST_UNITS: u8 = 64;

/// The most slots, each of which holds one event in flight.
pub const MOST_SLOTS: u8 = 64;
