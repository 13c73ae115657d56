//! The records of a text that comes in pieces.
//!
//! A [`Records`] is fed a text piece by piece, and answers its records one by one, whatever the pieces and
//! whenever it is asked: those before the first refused line, and then its number and cause
//! (docs/FORMATS.md, "Records in pieces"). [`Records::feed`] and [`Records::next`] are the calls that matter.
//!
//! Its one model is `HasRead` (`specs/Reading`): the text fed so far and the records given so far, beside
//! what is still ahead for each text that may yet come. It keeps the bytes of the lines that weren't taken, so
//! its memory doesn't grow with the text.
#![tactic(auto)]

mod cells;
mod first_line;
mod header;
pub mod laws;
mod line;
mod next;
mod numeral;
mod pieces;
mod products;
mod reading;
mod records;
mod stop;

pub use next::Next;
pub use records::Records;
