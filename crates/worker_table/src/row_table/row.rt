//! A row.
ghost use Rattle.std.specs.Prelude.{◌≡◌};

use crate::row_table::cell::Cell;

/// A row: a key of two numbers, and values.
#[derive(Clone, Drop)]
pub struct Row {
    pub first: u64,
    pub second: u64,
    /// The values, in the order of the columns.
    pub cells: Vec<Cell>,
}
