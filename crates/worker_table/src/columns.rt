//! The fields of an entry as the values of a row.
ghost use Rattle.std.specs.Prelude.{◌≡◌, ◌++◌, Ok, IfErr, IfOk, OnOk, map};
ghost use Rattle.worker_table.specs.RowTable.OfRow.{cell_of, cells_of};
ghost use Rattle.worker_table.specs.declared.row_table.cell.Kind.TheVariants as Kind;
ghost use Rattle.redis_resp.specs.Table.{last_with};
ghost use Rattle.stream_in_place.specs.Copied.{pairs_or_none};
ghost use Rattle.worker_table.specs.Cells.{cell_in, cell_read, cells_in, value_read};
ghost use Rattle.worker_table.specs.Reasons.{IsWhy, IsWhyOf, IsWhyOfOne};

use crate::fields::fields_text;
use crate::row_table::{Cell, Column, Kind};
use std::alloc::{AllocError, AllocFailed, Global};
use stream_in_place::FieldError;
use worker::EntryRef;

/// Why an entry has no values for a row.
#[derive(Debug, Drop)]
pub enum CellsError {
    Memory,
    /// The field of this name has no value for its column.
    Field(String, FieldError),
}

/// Why the value of a column could not be read.
#[derive(Clone, Copy, Debug)]
pub enum ReadError {
    Memory,
    Field(FieldError),
}

impl From<AllocError> for ReadError {
    ghost use Rattle.worker_table.specs.declared.columns.ReadError.TheVariants.{Memory};

    ghost from_gives = { λ _ error. error ≡ Memory };

    fn from(_error: AllocError) -> ReadError {
        ReadError::Memory
    }
}

impl From<AllocError> for CellsError {
    ghost use Rattle.worker_table.specs.declared.columns.CellsError.TheVariants.{Memory};

    ghost from_gives = { λ _ error. error ≡ Memory };

    fn from(_error: AllocError) -> CellsError {
        CellsError::Memory
    }
}

impl<T: Drop> From<AllocFailed<T>> for CellsError {
    ghost use Rattle.worker_table.specs.declared.columns.CellsError.TheVariants.{Memory};

    ghost from_gives = { λ _ error. error ≡ Memory };

    fn from(_error: AllocFailed<T>) -> CellsError {
        CellsError::Memory
    }
}

/// Returns the values of an entry: one for each column, or one text of all fields if there are no columns.
pub fn entry_cells(
    alloc: Global,
    columns: &[Column],
    entry: &EntryRef<'_>,
) -> Result<Vec<Cell>, CellsError>
    ensures ok { IfOk result (λ cells. cells_of cells.items ≡ cells_in columns.now (pairs_or_none entry.now.fields)) }
    ensures err { IfErr result (IsWhyOfOne columns.now (pairs_or_none entry.now.fields)) }
{
    let mut cells = Vec::new(alloc);
    if columns.is_empty() {
        cells.push(Cell::Text(fields_text(alloc, entry.fields())?))?;
    } else {
        push_cells(alloc, &mut cells, columns, entry)?;
    }
    Ok(cells)
}

/// Appends a value for each column.
fn push_cells(
    alloc: Global,
    cells: &mut Vec<Cell>,
    columns: &[Column],
    entry: &EntryRef<'_>,
) -> Result<(), CellsError>
    ensures ok { OnOk result (cells_of cells.new.items
        ≡ cells_of cells.old.items ++ map (cell_in (pairs_or_none entry.now.fields)) columns.now) }
    ensures err { IfErr result (IsWhyOfOne columns.now (pairs_or_none entry.now.fields)) }
{
    for column in columns {
        cells.push(read_column_cell(alloc, column, entry)?)?;
    }
    Ok(())
}

/// Returns the value of an entry in `column`.
fn read_column_cell(
    alloc: Global,
    column: &Column,
    entry: &EntryRef<'_>,
) -> Result<Cell, CellsError>
    ensures ok { IfOk result (λ cell. cell_of cell ≡ cell_in (pairs_or_none entry.now.fields) column.now) }
    ensures err { IfErr result (IsWhyOf column.now (pairs_or_none entry.now.fields)) }
{
    match read_cell(alloc, column, entry) {
        Ok(cell) => Ok(cell),
        Err(ReadError::Memory) => Err(CellsError::Memory),
        Err(ReadError::Field(why)) => Err(CellsError::Field(column.name.clone()?, why)),
    }
}

/// Reads the value of an entry in `column`. A missing field is null if the column is optional.
fn read_cell(alloc: Global, column: &Column, entry: &EntryRef<'_>) -> Result<Cell, ReadError>
    ensures ok { IfOk result (λ cell. cell_read column.now (pairs_or_none entry.now.fields) ≡ Ok (cell_of cell)) }
    ensures err { IfErr result (IsWhy (cell_read column.now (pairs_or_none entry.now.fields))) }
{
    match read_value(alloc, column.kind, column.name.as_bytes(), entry) {
        Err(ReadError::Field(FieldError::Missing)) if column.optional => Ok(Cell::Null),
        read => read,
    }
}

/// Reads the value of the last field with this name.
fn read_value(
    alloc: Global,
    kind: Kind,
    name: &[u8],
    entry: &EntryRef<'_>,
) -> Result<Cell, ReadError>
    ensures ok { IfOk result (λ cell. value_read kind (last_with name.now (pairs_or_none entry.now.fields))
        ≡ Ok (cell_of cell)) }
    ensures err { IfErr result (IsWhy (value_read kind (last_with name.now (pairs_or_none entry.now.fields)))) }
{
    match kind {
        Kind::Text => read_text(alloc, name, entry),
        Kind::Integer => read_integer(name, entry),
        Kind::Blob => read_blob(alloc, name, entry),
    }
}

/// Reads the value as a text.
fn read_text(alloc: Global, name: &[u8], entry: &EntryRef<'_>) -> Result<Cell, ReadError>
    ensures ok { IfOk result (λ cell. value_read Kind.Text (last_with name.now (pairs_or_none entry.now.fields))
        ≡ Ok (cell_of cell)) }
    ensures err { IfErr result (IsWhy (value_read Kind.Text (last_with name.now (pairs_or_none entry.now.fields)))) }
{
    match entry.get_str(name) {
        Ok(text) => Ok(Cell::Text(Vec::from_slice(alloc, text.as_bytes())?)),
        Err(why) => Err(ReadError::Field(why)),
    }
}

/// Reads the value as an integer.
fn read_integer(name: &[u8], entry: &EntryRef<'_>) -> Result<Cell, ReadError>
    ensures ok { IfOk result (λ cell. value_read Kind.Integer (last_with name.now (pairs_or_none entry.now.fields))
        ≡ Ok (cell_of cell)) }
    ensures err { IfErr result (IsWhy (value_read Kind.Integer (last_with name.now (pairs_or_none entry.now.fields)))) }
{
    match entry.get_i64(name) {
        Ok(number) => Ok(Cell::Integer(number)),
        Err(why) => Err(ReadError::Field(why)),
    }
}

/// Reads the value as bytes.
fn read_blob(alloc: Global, name: &[u8], entry: &EntryRef<'_>) -> Result<Cell, ReadError>
    ensures ok { IfOk result (λ cell. value_read Kind.Blob (last_with name.now (pairs_or_none entry.now.fields))
        ≡ Ok (cell_of cell)) }
    ensures err { IfErr result (IsWhy (value_read Kind.Blob (last_with name.now (pairs_or_none entry.now.fields)))) }
{
    match entry.get(name) {
        Some(bytes) => Ok(Cell::Blob(Vec::from_slice(alloc, bytes)?)),
        None => Err(ReadError::Field(FieldError::Missing)),
    }
}
