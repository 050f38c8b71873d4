//! Rows that are inserted with their posts, in one transaction.
ghost use Rattle.std.specs.Prelude.{◌≡◌, ◌∷◌, [], OnErr, OnOk};
ghost use Rattle.worker_table.specs.RowTable.Posts.{rows_in, rows_known, with_known_posted};
ghost use Rattle.worker_table.specs.RowTable.Rows.{AreKnown, IsClosed, LeavesJust, LeavesNoOther, LeavesOldOr};
ghost use Rattle.worker_table.specs.RowTable.OfPost.{all_posted, posted_of};

use crate::row_table::error::TableError;
use crate::row_table::outbox::WithOutbox;
use crate::row_table::post::PostedRow;
use std::alloc::Global;

/// Inserts rows with their posts in one transaction, and commits it. A row whose key exists is skipped, with
/// its post, if the existing row has the same values. Otherwise it is an error. After an `Err` the transaction
/// is rolled back.
pub fn put_all_posted<T: WithOutbox>(
    alloc: Global,
    table: &mut T,
    rows: &[PostedRow],
) -> Result<(), TableError>
    ensures ok { OnOk result (T.committed table.new
        ≡ with_known_posted (all_posted rows.now) (T.committed table.old)) }
    ensures there { OnOk result (AreKnown (rows_in (all_posted rows.now)) (rows_known (T.committed table.new))) }
    ensures err { OnErr result (T.committed table.new ≡ T.committed table.old) }
    ensures durable { OnOk result (LeavesJust (T.committed table.new) (T.may_leave table.new)) }
    ensures crash { LeavesOldOr (with_known_posted (all_posted rows.now) (T.committed table.old))
        (T.may_leave table.old) (T.may_leave table.new) }
    ensures closed { IsClosed (T.is_open table.new) }
{
    match put_posted_and_commit(alloc, table, rows) {
        Ok(()) => Ok(()),
        Err(error) => {
            table.roll_back();
            Err(error)
        }
    }
}

/// Inserts the rows and their posts, and commits. An `Err` leaves the transaction open.
fn put_posted_and_commit<T: WithOutbox>(
    alloc: Global,
    table: &mut T,
    rows: &[PostedRow],
) -> Result<(), TableError>
    ensures ok { OnOk result (T.committed table.new
        ≡ with_known_posted (all_posted rows.now) (T.committed table.old)) }
    ensures there { OnOk result (AreKnown (rows_in (all_posted rows.now)) (rows_known (T.committed table.new))) }
    ensures err { OnErr result (T.committed table.new ≡ T.committed table.old) }
    ensures durable { OnOk result (LeavesJust (T.committed table.new) (T.may_leave table.new)) }
    ensures crash { LeavesOldOr (with_known_posted (all_posted rows.now) (T.committed table.old))
        (T.may_leave table.old) (T.may_leave table.new) }
    ensures closed { OnOk result (IsClosed (T.is_open table.new)) }
{
    table.begin()?;
    put_each_posted(alloc, table, rows)?;
    table.commit()
}

/// Inserts rows and their posts one by one.
fn put_each_posted<T: WithOutbox>(
    alloc: Global,
    table: &mut T,
    rows: &[PostedRow],
) -> Result<(), TableError>
    ensures seen { OnOk result (T.seen table.new ≡ with_known_posted (all_posted rows.now) (T.seen table.old)) }
    ensures there { OnOk result (AreKnown (rows_in (all_posted rows.now)) (rows_known (T.seen table.new))) }
    ensures committed { T.committed table.new ≡ T.committed table.old }
    ensures crash { LeavesNoOther (T.may_leave table.old) (T.may_leave table.new) }
{
    for row in rows {
        put_posted(alloc, table, row)?;
    }
    Ok(())
}

/// Inserts a row and its post, unless the row exists. Returns an error if the key exists with other values.
fn put_posted<T: WithOutbox>(
    alloc: Global,
    table: &mut T,
    row: &PostedRow,
) -> Result<(), TableError>
    ensures seen { OnOk result (T.seen table.new ≡ with_known_posted (posted_of row.now ∷ []) (T.seen table.old)) }
    ensures there { OnOk result (AreKnown (rows_in (posted_of row.now ∷ [])) (rows_known (T.seen table.new))) }
    ensures committed { T.committed table.new ≡ T.committed table.old }
    ensures crash { LeavesNoOther (T.may_leave table.old) (T.may_leave table.new) }
{
    if table.insert(alloc, &row.row)? {
        return table.enqueue(alloc, row);
    }
    if table.holds(alloc, &row.row)? {
        return Ok(());
    }
    Err(TableError::OtherText {
        first: row.row.first,
        second: row.row.second,
    })
}
