//! Numbers as texts write them.
//!
//! A text's number is its canonical numeral: decimal digits, with no zero before other digits (docs/FORMATS.md, "Numerals").
#![tactic(auto)]

mod reading;

pub use reading::number_of;
