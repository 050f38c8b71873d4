//! The ids of the entries in a file of lines.
//!
//! `KnownIds` has ids in the order of their numbers, each with the offset of its line, in 24 bytes each. An id
//! greater than all of them is new without a search. Any other id is found by binary search. `numbers_of_file`
//! reads a file from its start, and returns the ids of its complete lines.

mod file;
mod head;
mod known;
pub mod laws;
mod number;

pub use file::{FileError, numbers_of_file};
pub use head::line_number;
pub use known::{KnownId, KnownIds};
pub use number::number_of;
