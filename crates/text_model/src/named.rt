//! Data handles by name.
use hive_model::{Kind, Text};

/// A data handle that an expression may name (docs/FORMATS.md, "Expressions").
#[derive(Debug, Drop)]
pub struct Named {
    pub name: Text,
    /// The number of the handle in the job, from 0.
    pub handle: u16,
    pub kind: Kind,
}
