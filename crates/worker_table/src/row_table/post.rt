//! A row, and the command that is sent for it.
ghost use Rattle.std.specs.Prelude.{◌≡◌};

use crate::row_table::row::Row;

/// A row, and the command that is sent for it.
#[derive(Drop)]
pub struct PostedRow {
    pub row: Row,
    /// The bytes of the command.
    pub command: Vec<u8>,
    /// The bytes of the query that checks whether the command was executed.
    pub question: Vec<u8>,
}

/// The command to send for the row with a key.
#[derive(Clone, Drop)]
pub struct Post {
    pub first: u64,
    pub second: u64,
    /// The bytes of the command.
    pub command: Vec<u8>,
    /// The bytes of the query that checks whether the command was executed.
    pub question: Vec<u8>,
}
