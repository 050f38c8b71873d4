//! The trait of a table.
ghost use Rattle.std.specs.Prelude.{◌≡◌, ◌++◌, ◌∷◌, [], ℕ, List, Bool, true, false, Option, Some, None, OnErr, OnOk, IfOk, IfSome, IsTrue, ◌↔◌};
ghost use Rattle.std.specs.Prelude.{option_map, is_some, if◌then◌else◌};
ghost use Rattle.worker_table.specs.RowTable.Rows as rows;
ghost use Rattle.worker_table.specs.RowTable.Rows.{IsClosed, IsRow, LeavesAll, LeavesJust, LeavesNoOther, LeavesOldOr, PutsIn, find, with_row};
ghost use Rattle.worker_table.specs.RowTable.OfRow.{key_of, row_of, rows_of};

use crate::row_table::error::TableError;
use crate::row_table::row::Row;
use std::alloc::Global;

/// A table of rows with keys, in a database with transactions.
///
/// The contracts assume that the disk is honest. Then any crash leaves a transaction completely or not at all.
/// After a successful commit any crash leaves the transaction completely.
pub trait Table {
    /// The rows in the open transaction, in the order in which they were inserted, if they are known.
    ghost seen: { Self → Option (List rows.Row) };

    /// The rows of the last commit, if they are known.
    ghost committed: { Self → Option (List rows.Row) };

    /// The rows that a crash at this moment may leave.
    ghost may_leave: { Self → List rows.Row → Type 0 };

    /// Any rows that a crash leaves begin with the rows of the last commit, if these are known.
    ghost begins: { (table : Self) → LeavesAll (committed table) (may_leave table) };

    /// Whether a transaction is open, if that is known.
    ghost is_open: { Self → Option Bool };

    /// Begins a transaction.
    fn begin(&mut self) -> Result<(), TableError>
        ensures seen { OnOk result (seen self.new ≡ committed self.old) }
        ensures committed { committed self.new ≡ committed self.old }
        ensures crash { LeavesNoOther (may_leave self.old) (may_leave self.new) };

    /// Inserts a row, unless its key exists. Returns whether the row was inserted.
    fn insert(&mut self, alloc: Global, row: &Row) -> Result<bool, TableError>
        ensures seen { OnOk result (seen self.new
            ≡ option_map (λ rs. with_row rs (row_of row.now)) (seen self.old)) }
        ensures told { IfOk result (λ is_new. IfSome (seen self.old)
            (λ rs. is_some (find (key_of row.now) rs) ≡ (if is_new then false else true))) }
        ensures committed { committed self.new ≡ committed self.old }
        ensures crash { LeavesNoOther (may_leave self.old) (may_leave self.new) };

    /// Inserts all rows at once, if none of their keys exists and no two keys are equal. Returns whether the
    /// rows were inserted. If not, nothing has changed, and the rows may be inserted one by one. An
    /// implementation may always return false.
    fn insert_many(&mut self, alloc: Global, rows: &[Row]) -> Result<bool, TableError>
        ensures seen { IfOk result (λ is_in. PutsIn is_in (rows_of rows.now) (seen self.old) (seen self.new)) }
        ensures committed { committed self.new ≡ committed self.old }
        ensures crash { LeavesNoOther (may_leave self.old) (may_leave self.new) };

    /// Whether the table has a row with the same key and the same values.
    fn holds(&mut self, alloc: Global, row: &Row) -> Result<bool, TableError>
        ensures seen { OnOk result (seen self.new ≡ seen self.old) }
        ensures told { IfOk result (λ is_there. IfSome (seen self.old)
            (λ rs. IsTrue is_there ↔ IsRow rs (row_of row.now))) }
        ensures committed { committed self.new ≡ committed self.old }
        ensures crash { LeavesNoOther (may_leave self.old) (may_leave self.new) };

    /// Commits the transaction. After `Ok`, any crash leaves the transaction's changes.
    fn commit(&mut self) -> Result<(), TableError>
        ensures ok { OnOk result (committed self.new ≡ seen self.old) }
        ensures err { OnErr result (committed self.new ≡ committed self.old) }
        ensures durable { OnOk result (LeavesJust (seen self.old) (may_leave self.new)) }
        ensures crash { LeavesOldOr (seen self.old) (may_leave self.old) (may_leave self.new) }
        ensures closed { OnOk result (IsClosed (is_open self.new)) };

    /// Rolls the transaction back, if one is open.
    fn roll_back(&mut self)
        ensures committed { committed self.new ≡ committed self.old }
        ensures crash { LeavesNoOther (may_leave self.old) (may_leave self.new) }
        ensures closed { IsClosed (is_open self.new) };
}
