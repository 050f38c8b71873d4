//! Rows that are inserted in one transaction.
ghost use Rattle.std.specs.Prelude.{◌≡◌, ◌∷◌, [], OnErr, OnOk};
ghost use Rattle.worker_table.specs.RowTable.Rows.{AreKnown, IsClosed, LeavesJust, LeavesNoOther, LeavesOldOr, with_known};
ghost use Rattle.worker_table.specs.RowTable.OfRow.{row_of, rows_of};

use crate::row_table::error::TableError;
use crate::row_table::row::Row;
use crate::row_table::table::Table;
use std::alloc::Global;

/// The number of rows that one statement inserts.
pub const ROWS_AT_ONCE: usize = 50;

/// Inserts rows in one transaction, and commits it. A row whose key exists is skipped if the existing row has
/// the same values. Otherwise it is an error. After an `Err` the transaction is rolled back.
pub fn put_all<T: Table>(alloc: Global, table: &mut T, rows: &[Row]) -> Result<(), TableError>
    ensures ok { OnOk result (T.committed table.new ≡ with_known (rows_of rows.now) (T.committed table.old)) }
    ensures there { OnOk result (AreKnown (rows_of rows.now) (T.committed table.new)) }
    ensures err { OnErr result (T.committed table.new ≡ T.committed table.old) }
    ensures durable { OnOk result (LeavesJust (T.committed table.new) (T.may_leave table.new)) }
    ensures crash { LeavesOldOr (with_known (rows_of rows.now) (T.committed table.old))
        (T.may_leave table.old) (T.may_leave table.new) }
    ensures closed { IsClosed (T.is_open table.new) }
{
    match put_and_commit(alloc, table, rows) {
        Ok(()) => Ok(()),
        Err(error) => {
            table.roll_back();
            Err(error)
        }
    }
}

/// Inserts the rows, and commits. An `Err` leaves the transaction open.
fn put_and_commit<T: Table>(alloc: Global, table: &mut T, rows: &[Row]) -> Result<(), TableError>
    ensures ok { OnOk result (T.committed table.new ≡ with_known (rows_of rows.now) (T.committed table.old)) }
    ensures there { OnOk result (AreKnown (rows_of rows.now) (T.committed table.new)) }
    ensures err { OnErr result (T.committed table.new ≡ T.committed table.old) }
    ensures durable { OnOk result (LeavesJust (T.committed table.new) (T.may_leave table.new)) }
    ensures crash { LeavesOldOr (with_known (rows_of rows.now) (T.committed table.old))
        (T.may_leave table.old) (T.may_leave table.new) }
    ensures closed { OnOk result (IsClosed (T.is_open table.new)) }
{
    table.begin()?;
    put_each(alloc, table, rows)?;
    table.commit()
}

/// Inserts rows, up to `ROWS_AT_ONCE` by each statement.
fn put_each<T: Table>(alloc: Global, table: &mut T, rows: &[Row]) -> Result<(), TableError>
    ensures seen { OnOk result (T.seen table.new ≡ with_known (rows_of rows.now) (T.seen table.old)) }
    ensures there { OnOk result (AreKnown (rows_of rows.now) (T.seen table.new)) }
    ensures committed { T.committed table.new ≡ T.committed table.old }
    ensures crash { LeavesNoOther (T.may_leave table.old) (T.may_leave table.new) }
{
    let mut rest = rows;
    while !rest.is_empty() {
        let (some, after) = rest.split_at(rest.len().min(ROWS_AT_ONCE));
        put_some(alloc, table, some)?;
        rest = after;
    }
    Ok(())
}

/// Inserts rows at once, or one by one if the table refuses to insert them at once.
fn put_some<T: Table>(alloc: Global, table: &mut T, rows: &[Row]) -> Result<(), TableError>
    ensures seen { OnOk result (T.seen table.new ≡ with_known (rows_of rows.now) (T.seen table.old)) }
    ensures there { OnOk result (AreKnown (rows_of rows.now) (T.seen table.new)) }
    ensures committed { T.committed table.new ≡ T.committed table.old }
    ensures crash { LeavesNoOther (T.may_leave table.old) (T.may_leave table.new) }
{
    if table.insert_many(alloc, rows)? {
        return Ok(());
    }
    put_in_turn(alloc, table, rows)
}

/// Inserts rows one by one.
fn put_in_turn<T: Table>(alloc: Global, table: &mut T, rows: &[Row]) -> Result<(), TableError>
    ensures seen { OnOk result (T.seen table.new ≡ with_known (rows_of rows.now) (T.seen table.old)) }
    ensures there { OnOk result (AreKnown (rows_of rows.now) (T.seen table.new)) }
    ensures committed { T.committed table.new ≡ T.committed table.old }
    ensures crash { LeavesNoOther (T.may_leave table.old) (T.may_leave table.new) }
{
    for row in rows {
        put(alloc, table, row)?;
    }
    Ok(())
}

/// Inserts a row, unless the row exists. Returns an error if the key exists with other values.
fn put<T: Table>(alloc: Global, table: &mut T, row: &Row) -> Result<(), TableError>
    ensures seen { OnOk result (T.seen table.new
        ≡ with_known (row_of row.now ∷ []) (T.seen table.old)) }
    ensures there { OnOk result (AreKnown (row_of row.now ∷ []) (T.seen table.new)) }
    ensures committed { T.committed table.new ≡ T.committed table.old }
    ensures crash { LeavesNoOther (T.may_leave table.old) (T.may_leave table.new) }
{
    if table.insert(alloc, row)? {
        return Ok(());
    }
    if table.holds(alloc, row)? {
        return Ok(());
    }
    Err(TableError::OtherText {
        first: row.first,
        second: row.second,
    })
}
