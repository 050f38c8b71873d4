//! A table in memory.
ghost use Rattle.std.specs.Prelude.{◌≡◌, ◌≤◌, [], Some, OnOk, false, length, option_map, take, true};
ghost use Rattle.std.proofs.Common.{◌∙◌, append-nil, sym};
ghost use Rattle.worker_table.specs.RowTable.OfRow.{cells_of, key_of, rows_of};
ghost use Rattle.worker_table.specs.RowTable.Rows.{find};

use crate::row_table::error::TableError;
use crate::row_table::row::Row;
use crate::row_table::table::Table;
use std::alloc::Global;

mod outbox;

pub use outbox::MemoryOutbox;

/// A table in memory. A crash leaves the rows of the last commit.
#[derive(Drop)]
pub struct MemoryTable {
    /// The committed rows, followed by the rows that the open transaction inserted.
    rows: Vec<Row>,
    /// The number of committed rows.
    committed: usize,
    is_open: bool,
    ghost within: { committed ≤ length rows.items },
    ghost closed: { is_open ≡ false → committed ≡ length rows.items },
}

impl MemoryTable {
    /// Creates a table without rows.
    pub fn new(alloc: Global) -> MemoryTable
        ensures rows { result.rows.items ≡ [] }
        ensures closed { result.is_open ≡ false }
    {
        MemoryTable {
            rows: Vec::new(alloc),
            committed: 0,
            is_open: false,
        }
    }

    /// Returns the committed rows, in the order in which they were inserted.
    pub fn rows(&self) -> &[Row]
        ensures { result.now ≡ take self.now.committed self.now.rows.items }
    {
        &self.rows[..self.committed]
    }

    /// Finds the row with the same key as `row`.
    fn find(&self, row: &Row) -> Option<&Row>
        ensures { option_map (λ found. cells_of found.now.cells.items) result
            ≡ find (key_of row.now) (rows_of self.now.rows.items) }
    {
        self.rows.iter().find(|there| there.first == row.first && there.second == row.second)
    }

    /// Returns an error unless a transaction is open.
    fn check_open(&self) -> Result<(), TableError>
        ensures { OnOk result (self.now.is_open ≡ true) }
    {
        if !self.is_open {
            return Err(TableError::Refused("no transaction is open"));
        }
        Ok(())
    }
}

impl Table for MemoryTable {
    ghost seen = { λ t. Some (rows_of t.rows.items) };

    ghost committed = { λ t. Some (rows_of (take t.committed t.rows.items)) };

    ghost may_leave = { λ t left. left ≡ rows_of (take t.committed t.rows.items) };

    ghost begins = { λ t left is. ([], is ∙ sym (append-nil (rows_of (take t.committed t.rows.items)))) };

    ghost is_open = { λ t. Some t.is_open };

    /// Begins a transaction. Returns an error if another transaction is open.
    fn begin(&mut self) -> Result<(), TableError> {
        if self.is_open {
            return Err(TableError::Refused("another transaction is open"));
        }
        self.is_open = true;
        Ok(())
    }

    fn insert(&mut self, _alloc: Global, row: &Row) -> Result<bool, TableError> {
        self.check_open()?;
        if self.find(row).is_some() {
            return Ok(false);
        }
        self.rows.push(row.clone()?)?;
        Ok(true)
    }

    /// Always returns false, so that the rows are inserted one by one.
    fn insert_many(&mut self, _alloc: Global, _rows: &[Row]) -> Result<bool, TableError> {
        Ok(false)
    }

    fn holds(&mut self, _alloc: Global, row: &Row) -> Result<bool, TableError> {
        Ok(self.find(row).is_some_and(|there| there.cells == row.cells))
    }

    fn commit(&mut self) -> Result<(), TableError> {
        self.check_open()?;
        self.committed = self.rows.len();
        self.is_open = false;
        Ok(())
    }

    fn roll_back(&mut self) {
        self.rows.truncate(self.committed);
        self.is_open = false;
    }
}
