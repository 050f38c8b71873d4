//! The statements of a table, with quoted names.
ghost use Rattle.std.specs.Prelude.{◌≡◌, ◌++◌, ◌-◌, codes, flat_map, length, IfOk, OnOk, string_bytes};
ghost use Rattle.worker_sqlite.specs.Form.{IsFormOf, IsUsual, column_text, condition_text, create_text, holds_text, insert_many_text, insert_text};
ghost use Rattle.worker_sqlite.specs.Form.{kind_text, more_places_text, null_text, places_text, quoted, quoted_byte, usual_create, usual_holds, usual_insert, value_text};

use std::alloc::Global;
use worker_table::row_table::{Column, Kind, ROWS_AT_ONCE, TableError};

const CREATE: &str =
    "CREATE TABLE entries (milliseconds INTEGER NOT NULL, sequence INTEGER NOT NULL, fields TEXT NOT NULL, PRIMARY KEY (milliseconds, sequence)) STRICT";

const INSERT: &str =
    "INSERT INTO entries (milliseconds, sequence, fields) VALUES (?1, ?2, ?3) ON CONFLICT DO NOTHING";

const HOLDS: &str =
    "SELECT 1 FROM entries WHERE milliseconds = ?1 AND sequence = ?2 AND fields IS ?3";

/// The statements of a table.
#[derive(Drop)]
pub struct Form {
    /// The table's name.
    pub name: String,
    /// The statement that creates the table.
    pub create: String,
    /// The statement that inserts a row, unless its key exists.
    pub insert: String,
    /// The statement that inserts `ROWS_AT_ONCE` rows, and fails if one of their keys exists.
    pub insert_many: String,
    /// The query that returns one row if the row with this key has these values, and otherwise no row.
    pub holds: String,
}

impl Form {
    /// Returns the statements of the table `entries`, whose only column besides the key is the text `fields`.
    pub fn usual(alloc: Global) -> Result<Form, TableError>
        ensures { IfOk result IsUsual }
    {
        Ok(Form {
            name: String::from_str(alloc, "entries")?,
            create: String::from_str(alloc, CREATE)?,
            insert: String::from_str(alloc, INSERT)?,
            insert_many: make_insert_many_statement(alloc, "entries", 1)?,
            holds: String::from_str(alloc, HOLDS)?,
        })
    }

    /// Returns the statements of the table `name`, with the two columns of the key and these columns. The names
    /// are quoted.
    pub fn of(alloc: Global, name: &str, columns: &[Column]) -> Result<Form, TableError>
        ensures { IfOk result (IsFormOf name.now columns.now) }
    {
        Ok(Form {
            name: String::from_str(alloc, name)?,
            create: make_create_statement(alloc, name, columns)?,
            insert: make_insert_statement(alloc, name, columns)?,
            insert_many: make_insert_many_statement(alloc, name, columns.len())?,
            holds: make_holds_query(alloc, name, columns)?,
        })
    }
}

/// Returns the statement that creates the table.
fn make_create_statement(
    alloc: Global,
    name: &str,
    columns: &[Column],
) -> Result<String, TableError>
    ensures { IfOk result (λ text. string_bytes text ≡ create_text name.now columns.now) }
{
    let mut out = Vec::new(alloc);
    push_create(&mut out, name, columns)?;
    convert_to_string(out)
}

/// Appends the statement that creates the table.
fn push_create(out: &mut Vec<u8>, name: &str, columns: &[Column]) -> Result<(), TableError>
    ensures { OnOk result (out.new.items ≡ out.old.items ++ create_text name.now columns.now) }
{
    out.extend_from_slice(b"CREATE TABLE ")?;
    push_name(out, name.as_bytes())?;
    out.extend_from_slice(b" (milliseconds INTEGER NOT NULL, sequence INTEGER NOT NULL, ")?;
    push_columns(out, columns)?;
    Ok(out.extend_from_slice(b"PRIMARY KEY (milliseconds, sequence)) STRICT")?)
}

/// Returns the statement that inserts a row.
fn make_insert_statement(
    alloc: Global,
    name: &str,
    columns: &[Column],
) -> Result<String, TableError>
    ensures { IfOk result (λ text. string_bytes text ≡ insert_text name.now columns.now) }
{
    let mut out = Vec::new(alloc);
    push_insert(&mut out, name, columns)?;
    convert_to_string(out)
}

/// Appends the statement that inserts a row.
fn push_insert(out: &mut Vec<u8>, name: &str, columns: &[Column]) -> Result<(), TableError>
    ensures { OnOk result (out.new.items ≡ out.old.items ++ insert_text name.now columns.now) }
{
    out.extend_from_slice(b"INSERT INTO ")?;
    push_name(out, name.as_bytes())?;
    out.extend_from_slice(b" VALUES (?, ?")?;
    push_values(out, columns)?;
    Ok(out.extend_from_slice(b") ON CONFLICT DO NOTHING")?)
}

/// Returns the statement that inserts `ROWS_AT_ONCE` rows, each with a key and `width` values.
fn make_insert_many_statement(alloc: Global, name: &str, width: usize) -> Result<String, TableError>
    ensures { IfOk result (λ text. string_bytes text ≡ insert_many_text name.now width) }
{
    let mut out = Vec::new(alloc);
    push_insert_many(&mut out, name, width)?;
    convert_to_string(out)
}

/// Appends the statement that inserts `ROWS_AT_ONCE` rows.
fn push_insert_many(out: &mut Vec<u8>, name: &str, width: usize) -> Result<(), TableError>
    ensures { OnOk result (out.new.items ≡ out.old.items ++ insert_many_text name.now width) }
{
    out.extend_from_slice(b"INSERT INTO ")?;
    push_name(out, name.as_bytes())?;
    out.extend_from_slice(b" VALUES ")?;
    push_places(out, width)?;
    push_more_places(out, width)
}

/// Appends the placeholders of all rows except the first.
fn push_more_places(out: &mut Vec<u8>, width: usize) -> Result<(), TableError>
    ensures { OnOk result (out.new.items ≡ out.old.items ++ more_places_text width (ROWS_AT_ONCE - 1)) }
{
    for _row in 0..ROWS_AT_ONCE - 1 {
        push_next_places(out, width)?;
    }
    Ok(())
}

/// Appends a comma, and the placeholders of a row.
fn push_next_places(out: &mut Vec<u8>, width: usize) -> Result<(), TableError>
    ensures { OnOk result (out.new.items ≡ out.old.items ++ (codes ", " ++ places_text width)) }
{
    out.extend_from_slice(b", ")?;
    push_places(out, width)
}

/// Appends the placeholders of a row: two for its key, and `width` for its values.
fn push_places(out: &mut Vec<u8>, width: usize) -> Result<(), TableError>
    ensures { OnOk result (out.new.items ≡ out.old.items ++ places_text width) }
{
    out.extend_from_slice(b"(?, ?")?;
    for _value in 0..width {
        out.extend_from_slice(b", ?")?;
    }
    Ok(out.push(b')')?)
}

/// Returns the query for a row with a key and values.
fn make_holds_query(alloc: Global, name: &str, columns: &[Column]) -> Result<String, TableError>
    ensures { IfOk result (λ text. string_bytes text ≡ holds_text name.now columns.now) }
{
    let mut out = Vec::new(alloc);
    push_holds(&mut out, name, columns)?;
    convert_to_string(out)
}

/// Appends the query for a row with a key and values.
fn push_holds(out: &mut Vec<u8>, name: &str, columns: &[Column]) -> Result<(), TableError>
    ensures { OnOk result (out.new.items ≡ out.old.items ++ holds_text name.now columns.now) }
{
    out.extend_from_slice(b"SELECT 1 FROM ")?;
    push_name(out, name.as_bytes())?;
    out.extend_from_slice(b" WHERE milliseconds = ? AND sequence = ?")?;
    push_conditions(out, columns)
}

/// Appends a name in double quotes.
fn push_name(out: &mut Vec<u8>, name: &[u8]) -> Result<(), TableError>
    ensures { OnOk result (out.new.items ≡ out.old.items ++ quoted name.now) }
{
    out.push(b'"')?;
    push_bytes(out, name)?;
    Ok(out.push(b'"')?)
}

/// Appends the bytes of a name within double quotes.
fn push_bytes(out: &mut Vec<u8>, name: &[u8]) -> Result<(), TableError>
    ensures { OnOk result (out.new.items ≡ out.old.items ++ flat_map quoted_byte name.now) }
{
    for byte in name {
        push_byte(out, *byte)?;
    }
    Ok(())
}

/// Appends a byte of a name. A double quote is written twice, and a NUL is an error.
fn push_byte(out: &mut Vec<u8>, byte: u8) -> Result<(), TableError>
    ensures { OnOk result (out.new.items ≡ out.old.items ++ quoted_byte byte) }
{
    match byte {
        b'"' => Ok(out.extend_from_slice(b"\"\"")?),
        0 => Err(TableError::Refused("a name has a NUL in it")),
        _ => Ok(out.push(byte)?),
    }
}

/// Appends the columns of a CREATE TABLE.
fn push_columns(out: &mut Vec<u8>, columns: &[Column]) -> Result<(), TableError>
    ensures { OnOk result (out.new.items ≡ out.old.items ++ flat_map column_text columns.now) }
{
    for column in columns {
        push_column(out, column)?;
    }
    Ok(())
}

/// Appends a column of a CREATE TABLE, and a comma.
fn push_column(out: &mut Vec<u8>, column: &Column) -> Result<(), TableError>
    ensures { OnOk result (out.new.items ≡ out.old.items ++ column_text column.now) }
{
    push_name(out, column.name.as_bytes())?;
    out.extend_from_slice(find_type_name(column.kind).as_bytes())?;
    out.extend_from_slice(find_constraint(column.optional).as_bytes())?;
    Ok(out.extend_from_slice(b", ")?)
}

/// Returns the name of a column's type in SQL.
fn find_type_name(kind: Kind) -> &'static str
    ensures { result.now ≡ kind_text kind }
{
    match kind {
        Kind::Text => " TEXT",
        Kind::Integer => " INTEGER",
        Kind::Blob => " BLOB",
    }
}

/// Returns the constraint of a column. `optional` says whether a row may have no value there.
fn find_constraint(optional: bool) -> &'static str
    ensures { result.now ≡ null_text optional }
{
    if optional { "" } else { " NOT NULL" }
}

/// Appends a placeholder for each value.
fn push_values(out: &mut Vec<u8>, columns: &[Column]) -> Result<(), TableError>
    ensures { OnOk result (out.new.items ≡ out.old.items ++ flat_map value_text columns.now) }
{
    for _column in columns {
        out.extend_from_slice(b", ?")?;
    }
    Ok(())
}

/// Appends a condition for each column.
fn push_conditions(out: &mut Vec<u8>, columns: &[Column]) -> Result<(), TableError>
    ensures { OnOk result (out.new.items ≡ out.old.items ++ flat_map condition_text columns.now) }
{
    for column in columns {
        push_condition(out, column.name.as_bytes())?;
    }
    Ok(())
}

/// Appends the condition for the column `name`.
fn push_condition(out: &mut Vec<u8>, name: &[u8]) -> Result<(), TableError>
    ensures { OnOk result (out.new.items ≡ out.old.items
        ++ (codes " AND " ++ (quoted name.now ++ codes " IS ?"))) }
{
    out.extend_from_slice(b" AND ")?;
    push_name(out, name)?;
    Ok(out.extend_from_slice(b" IS ?")?)
}

/// Converts bytes that are UTF-8 to a string.
fn convert_to_string(bytes: Vec<u8>) -> Result<String, TableError>
    ensures { IfOk result (λ text. string_bytes text ≡ bytes.items) }
{
    match String::from_utf8(bytes) {
        Ok(text) => Ok(text),
        Err(_) => Err(TableError::Refused("a name is not UTF-8")),
    }
}
