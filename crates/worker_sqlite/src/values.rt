//! The values of a row as values of SQL.
ghost use Rattle.std.specs.Prelude.{◌≡◌, ◌++◌, IfOk, OnOk, flat_map, pos};
ghost use Rattle.sqlite.specs.Values.{bound, bound_value};
ghost use Rattle.sqlite_value.specs.Value.{owned};
ghost use Rattle.worker_table.specs.RowTable.OfRow.{cell_of, cells_of, row_of};
ghost use Rattle.worker_table.specs.RowTable.OfPost.{posted_of};
ghost use Rattle.worker_table.specs.RowTable.Posts.{post_for};
ghost use Rattle.worker_sqlite.specs.Outbox.{post_values};
ghost use Rattle.worker_sqlite.specs.Statements.{key_values, row_values, value_of, values_of};

use sqlite::types::ValueRef;
use std::alloc::{AllocError, Global};
use worker_table::row_table::{Cell, PostedRow, Row, TableError};

/// Returns the key of a row and its values.
pub fn values_of<'a>(alloc: Global, row: &'a Row) -> Result<Vec<ValueRef<'a>>, TableError>
    ensures { IfOk result (λ values. bound values.items ≡ row_values (row_of row.now)) }
{
    let mut values = Vec::with_capacity(alloc, 8)?;
    push_row(&mut values, row)?;
    Ok(values)
}

/// Returns the keys of the rows and their values, in order.
pub fn values_of_all<'a>(alloc: Global, rows: &'a [Row]) -> Result<Vec<ValueRef<'a>>, TableError>
    ensures { IfOk result (λ values. bound values.items ≡ flat_map (λ row. row_values (row_of row)) rows.now) }
{
    let mut values = Vec::new(alloc);
    for row in rows {
        push_row(&mut values, row)?;
    }
    Ok(values)
}

/// Appends the key of a row and its values.
fn push_row<'a>(values: &mut Vec<ValueRef<'a>>, row: &'a Row) -> Result<(), TableError>
    ensures { OnOk result (bound values.new.items ≡ bound values.old.items ++ row_values (row_of row.now)) }
{
    push_key(values, row.first, row.second)?;
    Ok(push_values(values, &row.cells)?)
}

/// Appends the numbers of a key.
fn push_key(values: &mut Vec<ValueRef<'_>>, first: u64, second: u64) -> Result<(), TableError>
    ensures { OnOk result (bound values.new.items ≡ bound values.old.items ++ key_values (first, second)) }
{
    let (first, second) = convert_key(first, second)?;
    values.push(ValueRef::Int(first))?;
    Ok(values.push(ValueRef::Int(second))?)
}

/// Converts a key to two signed numbers. A number of 2^63 or more is an error.
fn convert_key(first: u64, second: u64) -> Result<(i64, i64), TableError>
    ensures { IfOk result (λ k. (k.0 ≡ pos first) × (k.1 ≡ pos second)) }
{
    match (i64::try_from(first), i64::try_from(second)) {
        (Ok(key_first), Ok(key_second)) => Ok((key_first, key_second)),
        _ => Err(TableError::KeyTooLarge { first, second }),
    }
}

/// Returns the two numbers of a key.
pub fn values_of_key<'a>(
    alloc: Global,
    first: u64,
    second: u64,
) -> Result<Vec<ValueRef<'a>>, TableError>
    ensures { IfOk result (λ values. bound values.items ≡ key_values (first, second)) }
{
    let mut values = Vec::with_capacity(alloc, 4)?;
    push_key(&mut values, first, second)?;
    Ok(values)
}

/// Returns the key of a row, followed by the command and the query of its post.
pub fn values_of_post<'a>(
    alloc: Global,
    row: &'a PostedRow,
) -> Result<Vec<ValueRef<'a>>, TableError>
    ensures { IfOk result (λ values. bound values.items ≡ post_values (post_for (posted_of row.now))) }
{
    let mut values = values_of_key(alloc, row.row.first, row.row.second)?;
    values.push(ValueRef::Blob(row.command.as_slice()))?;
    values.push(ValueRef::Blob(row.question.as_slice()))?;
    Ok(values)
}

/// Appends the values, in order.
fn push_values<'a>(values: &mut Vec<ValueRef<'a>>, cells: &'a [Cell]) -> Result<(), AllocError>
    ensures { OnOk result (bound values.new.items ≡ bound values.old.items ++ values_of (cells_of cells.now)) }
{
    for cell in cells {
        values.push(convert_cell(cell))?;
    }
    Ok(())
}

/// Converts a cell to a value of SQL.
fn convert_cell<'a>(cell: &'a Cell) -> ValueRef<'a>
    ensures { bound_value (owned result) ≡ value_of (cell_of cell.now) }
{
    match cell {
        Cell::Null => ValueRef::Null,
        Cell::Integer(number) => ValueRef::Int(*number),
        Cell::Text(text) => ValueRef::Text(text.as_slice()),
        Cell::Blob(bytes) => ValueRef::Blob(bytes.as_slice()),
    }
}
