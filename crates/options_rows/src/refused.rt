//! Refusals as rows show them: as in their stop line.
use std::alloc::{AllocError, Global};
use text_model::OptionsRefusal;

/// The refusal's name and its path.
pub(crate) fn refused(alloc: Global, refusal: &OptionsRefusal) -> Result<String, AllocError> {
    match refusal {
        OptionsRefusal::Toml => String::from_str(alloc, "Toml"),
        OptionsRefusal::Unknown { path } => format!(in alloc; "Unknown {}", path.as_str()),
        OptionsRefusal::Missing { path } => format!(in alloc; "Missing {}", path.as_str()),
        OptionsRefusal::Field { path } => format!(in alloc; "Field {}", path.as_str()),
        OptionsRefusal::Name { path } => format!(in alloc; "Name {}", path.as_str()),
        OptionsRefusal::Range { path } => format!(in alloc; "Range {}", path.as_str()),
        OptionsRefusal::NoMemory => String::from_str(alloc, "NoMemory"),
    }
}
