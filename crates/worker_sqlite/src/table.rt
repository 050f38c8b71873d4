//! A table in a SQLite database, over a connection.
ghost use Rattle.std.specs.Prelude.{[], ◌∷◌, option_map, ◌≡◌, ℕ, None, IfErr, IfOk, OnOk, codes, flat_map, string_bytes};
ghost use Rattle.sqlite.specs.Files.{IsOpened, file_state, over_files};
ghost use Rattle.sqlite.specs.Held.{Held, IsNew};
ghost use Rattle.sqlite.specs.State.{HasCleanDisk};
ghost use Rattle.sqlite.specs.Values.{bound};
ghost use Rattle.sqlite.specs.declared.types.Value.TheVariants.{Text};
ghost use Rattle.worker_table.specs.RowTable.OfRow.{row_of};
ghost use Rattle.worker_sqlite.specs.Statements.{Found, IsMade, IsNamed, IsNamedAtOpening, LeavesBy, Ran, RanAll, RanOne, Shows, TakesBack, known_text, row_values};

use crate::error::OpenError;
use crate::form::Form;
use crate::values::{values_of, values_of_all};
use sqlite::types::ValueRef;
use sqlite::{Alter, Connection, Error, ErrorCode, File, FileStore};
use sqlite_resolve::CompileError;
use std::alloc::Global;
use worker_table::row_table::{ROWS_AT_ONCE, Row, Table, TableError};

mod outbox;

pub use outbox::{OUTBOX, OUTBOX_CREATE, SqliteOutbox, Waiting};

const KNOWN: &str = "SELECT sql FROM sqlite_schema WHERE lower(name) = lower(?1)";

/// A table of a database.
#[derive(Drop)]
pub struct SqliteTable<S: Alter + Drop> {
    conn: Connection<S>,
    form: Form,
}

impl SqliteTable<FileStore<File>> {
    /// Opens the table of `form` in the file at `path`. Creates the file and the table if they do not exist.
    pub fn open(
        rt: &HostRuntime,
        path: &str,
        form: Form,
    ) -> Result<SqliteTable<FileStore<File>>, OpenError>
        ensures named { IfErr result IsNamedAtOpening }
        ensures form { IfOk result (λ table. table.form ≡ form) }
        ensures made { IfOk result (λ table. (conn : Held _) × IsNew conn
            × (HasCleanDisk (file_state conn) → IsOpened conn)
            × IsMade over_files conn table.conn (string_bytes form.name) (string_bytes form.create)) }
    {
        match Connection::open(rt, path) {
            Ok(conn) => SqliteTable::over(rt.alloc(), conn, form),
            Err(error) => Err(OpenError::Table(convert_error(error))),
        }
    }

    /// Copies the committed changes into the file itself, so that no other file is needed.
    pub fn close(self) -> Result<(), TableError>
        ensures { IfErr result IsNamed }
    {
        match self.conn.close() {
            Ok(()) => Ok(()),
            Err(error) => Err(convert_error(error)),
        }
    }
}

impl<S: Alter + Drop> SqliteTable<S> {
    /// Opens the table of `form` in this database. Creates the table if it does not exist.
    pub fn over(alloc: Global, conn: Connection<S>, form: Form) -> Result<SqliteTable<S>, OpenError>
        ensures named { IfErr result IsNamedAtOpening }
        ensures form { IfOk result (λ table. table.form ≡ form) }
        ensures made { IfOk result (λ table. IsMade S.Store conn table.conn (string_bytes form.name)
            (string_bytes form.create)) }
    {
        let mut conn = conn;
        make(alloc, &mut conn, &form.name, &form.create)?;
        Ok(SqliteTable { conn, form })
    }
}

impl<S: Alter + Drop> Table for SqliteTable<S> {
    ghost seen = { λ _. None };

    ghost committed = { λ _. None };

    ghost may_leave = { λ _ _. Unit {0} };

    ghost begins = { λ _ _ _. tt };

    ghost is_open = { λ _. None };

    /// Executes `BEGIN`.
    fn begin(&mut self) -> Result<(), TableError>
        ensures ran { OnOk result ((count : ℕ) × Ran S.Store self.old.conn self.new.conn (codes "BEGIN") [] count) }
        ensures leaves { LeavesBy S.Store self.old.conn self.new.conn (codes "BEGIN") [] }
        ensures form { self.new.form ≡ self.old.form }
    {
        run(&mut self.conn, "BEGIN")
    }

    /// Executes `INSERT .. ON CONFLICT DO NOTHING` with the key and the values.
    fn insert(&mut self, alloc: Global, row: &Row) -> Result<bool, TableError>
        ensures ran { IfOk result (RanOne S.Store self.old.conn self.new.conn (string_bytes self.old.form.insert)
            (row_values (row_of row.now))) }
        ensures form { self.new.form ≡ self.old.form }
    {
        let values = values_of(alloc, row)?;
        insert(&mut self.conn, &self.form.insert, &values)
    }

    /// Executes `INSERT` with the keys and the values, if there are exactly `ROWS_AT_ONCE` rows. An existing
    /// row violates the primary key. Then the database rolls the statement back.
    fn insert_many(&mut self, alloc: Global, rows: &[Row]) -> Result<bool, TableError>
        ensures ran { IfOk result (RanAll S.Store self.old.conn self.new.conn (string_bytes self.old.form.insert_many)
            (flat_map (λ row. row_values (row_of row)) rows.now)) }
        ensures form { self.new.form ≡ self.old.form }
    {
        if rows.len() != ROWS_AT_ONCE {
            return Ok(false);
        }
        let values = values_of_all(alloc, rows)?;
        insert_many(&mut self.conn, &self.form.insert_many, &values)
    }

    /// Executes `SELECT` with the key and the values.
    fn holds(&mut self, alloc: Global, row: &Row) -> Result<bool, TableError>
        ensures shows { IfOk result (Shows S.Store self.old.conn self.new.conn (string_bytes self.old.form.holds)
            (row_values (row_of row.now))) }
        ensures form { self.new.form ≡ self.old.form }
    {
        let values = values_of(alloc, row)?;
        shows(&mut self.conn, &self.form.holds, &values)
    }

    /// Executes `COMMIT`.
    fn commit(&mut self) -> Result<(), TableError>
        ensures ran { OnOk result ((count : ℕ) × Ran S.Store self.old.conn self.new.conn (codes "COMMIT") [] count) }
        ensures leaves { LeavesBy S.Store self.old.conn self.new.conn (codes "COMMIT") [] }
        ensures form { self.new.form ≡ self.old.form }
    {
        run(&mut self.conn, "COMMIT")
    }

    /// Executes `ROLLBACK`, if a transaction is open.
    fn roll_back(&mut self)
        ensures taken_back { TakesBack S.Store self.old.conn self.new.conn }
        ensures form { self.new.form ≡ self.old.form }
    {
        if !self.conn.is_autocommit() {
            let _ended = self.conn.execute("ROLLBACK", &[]);
        }
    }
}

/// Converts an error of the database to one of a table.
fn convert_error(error: Error) -> TableError
    ensures { IsNamed result }
{
    TableError::Refused(describe_error(error))
}

/// Executes a statement without parameters.
fn run<S: Alter + Drop>(conn: &mut Connection<S>, sql: &str) -> Result<(), TableError>
    ensures named { IfErr result IsNamed }
    ensures ran { OnOk result ((count : ℕ) × Ran S.Store conn.old conn.new sql.now [] count) }
    ensures leaves { LeavesBy S.Store conn.old conn.new sql.now [] }
{
    match conn.execute(sql, &[]) {
        Ok(_) => Ok(()),
        Err(error) => Err(convert_error(error)),
    }
}

/// Executes a statement with these values. Returns whether it changed exactly one row.
fn insert<S: Alter + Drop>(
    conn: &mut Connection<S>,
    sql: &str,
    values: &[ValueRef<'_>],
) -> Result<bool, TableError>
    ensures ran { IfOk result (RanOne S.Store conn.old conn.new sql.now (bound values.now)) }
{
    match conn.execute(sql, values) {
        Ok(count) => Ok(count == 1),
        Err(error) => Err(convert_error(error)),
    }
}

/// Executes a statement with these values. Returns whether it violated no constraint.
fn insert_many<S: Alter + Drop>(
    conn: &mut Connection<S>,
    sql: &str,
    values: &[ValueRef<'_>],
) -> Result<bool, TableError>
    ensures ran { IfOk result (RanAll S.Store conn.old conn.new sql.now (bound values.now)) }
{
    match conn.execute(sql, values) {
        Ok(_) => Ok(true),
        Err(Error::SqliteFailure(ErrorCode::ConstraintViolation(_))) => Ok(false),
        Err(error) => Err(convert_error(error)),
    }
}

/// Whether a query with these values returns a row.
fn shows<S: Alter + Drop>(
    conn: &mut Connection<S>,
    sql: &str,
    values: &[ValueRef<'_>],
) -> Result<bool, TableError>
    ensures shows { IfOk result (Shows S.Store conn.old conn.new sql.now (bound values.now)) }
{
    match conn.query_row(sql, values) {
        Ok(_) => Ok(true),
        Err(Error::QueryReturnedNoRows) => Ok(false),
        Err(error) => Err(convert_error(error)),
    }
}

/// Creates the table `name` with the statement `create`, if it does not exist. An existing table must have been
/// created by the same statement.
fn make<S: Alter + Drop>(
    alloc: Global,
    conn: &mut Connection<S>,
    name: &str,
    create: &str,
) -> Result<(), OpenError>
    ensures named { IfErr result IsNamedAtOpening }
    ensures made { OnOk result (IsMade S.Store conn.old conn.new name.now create.now) }
{
    match find_definition(alloc, conn, name)? {
        None => Ok(run(conn, create)?),
        Some(text) if text.as_slice() == create.as_bytes() => Ok(()),
        Some(text) => Err(make_other_form_error(text)),
    }
}

/// Returns the error for a value that a table of this form cannot have.
fn make_malformed_error() -> TableError
    ensures { IsNamed result }
{
    TableError::Refused("the database is malformed")
}

/// Returns the error for an existing table of another form. `text` is the SQL that created it.
fn make_other_form_error(text: Vec<u8>) -> OpenError
    ensures { IsNamedAtOpening result }
{
    match String::from_utf8(text) {
        Ok(text) => OpenError::Another(text),
        Err(_) => OpenError::Table(make_malformed_error()),
    }
}

/// Returns the text of the `CREATE` statement of the table `name`, or `None` if the table does not exist.
fn find_definition<S: Alter + Drop>(
    alloc: Global,
    conn: &mut Connection<S>,
    name: &str,
) -> Result<Option<Vec<u8>>, TableError>
    ensures named { IfErr result IsNamed }
    ensures found { IfOk result (λ found. Found S.Store conn.old conn.new known_text (Text name.now ∷ [])
        (option_map (λ text. text.items) found)) }
{
    query_text(alloc, conn, KNOWN, &[ValueRef::Text(name.as_bytes())])
}

/// Returns the first value of the query's first row, which must be a text. Returns `None` if the query returns
/// no row.
fn query_text<S: Alter + Drop>(
    alloc: Global,
    conn: &mut Connection<S>,
    sql: &str,
    params: &[ValueRef<'_>],
) -> Result<Option<Vec<u8>>, TableError>
    ensures named { IfErr result IsNamed }
    ensures found { IfOk result (λ found. Found S.Store conn.old conn.new sql.now (bound params.now)
        (option_map (λ text. text.items) found)) }
{
    let row = match conn.query_row(sql, params) {
        Ok(row) => row,
        Err(Error::QueryReturnedNoRows) => return Ok(None),
        Err(error) => return Err(convert_error(error)),
    };
    match row.get_ref(0) {
        Ok(ValueRef::Text(text)) => Ok(Some(Vec::from_slice(alloc, text)?)),
        _ => Err(make_malformed_error()),
    }
}

/// Returns the reason that an error of the database gives.
fn describe_error(error: Error) -> &'static str {
    match error {
        Error::SqliteFailure(code) => describe_code(code),
        Error::SqlInputError(CompileError::NoSuchTable) => {
            "its table has a trigger or an index that this program does not run, or is gone"
        }
        Error::SqlInputError(_) => "the database does not understand the statement",
        _ => "the database refuses the statement",
    }
}

/// Returns the text for an error code of the database.
fn describe_code(code: ErrorCode) -> &'static str {
    match code {
        ErrorCode::ConstraintViolation(_) => "a row breaks a rule of the table",
        ErrorCode::NotADatabase => "the file is no database, or its rows break its rules",
        ErrorCode::DatabaseCorrupt => "the database is malformed",
        ErrorCode::CannotOpen => "the file cannot be opened for writing",
        ErrorCode::DatabaseBusy => "another process has the file",
        ErrorCode::TooBig => "the fields of an entry are too long",
        ErrorCode::OutOfMemory => "out of memory",
        ErrorCode::SystemIoFailure => "the disk fails",
        ErrorCode::DiskFull => "the disk is full",
        ErrorCode::Closed => "the database was closed after an earlier failure",
        ErrorCode::TransactionState => "another transaction is open, or none is",
        _ => "the database refuses the statement",
    }
}
