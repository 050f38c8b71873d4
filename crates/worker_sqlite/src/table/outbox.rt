//! A table with an outbox beside it, in the same database.
ghost use Rattle.std.specs.Prelude.{[], ◌≡◌, ℕ, None, IfErr, IfOk, OnOk, codes, option_map, pos, string_bytes};
ghost use Rattle.sqlite.specs.Order.{column};
ghost use Rattle.sqlite.specs.Values.{bound};
ghost use Rattle.worker_table.specs.RowTable.OfPost.{post_of, posted_of};
ghost use Rattle.worker_table.specs.RowTable.OfRow.{row_of};
ghost use Rattle.worker_table.specs.RowTable.Posts.{post_for};
ghost use Rattle.worker_sqlite.specs.Outbox.{AreValues, Counts, FoundPost, ShowsOutbox, WaitsIn, bytes_value, enqueue_text, first_text, number_value, outbox_create, post_values, remove_text};
ghost use Rattle.worker_sqlite.specs.Statements.{IsMade, IsNamedAtOpening, LeavesBy, Ran, RanOne, Shows, TakesBack, key_values, row_values};

use super::{SqliteTable, convert_error, find_definition, make, make_malformed_error};
use crate::error::OpenError;
use crate::values::{values_of_key, values_of_post};
use sqlite::types::ValueRef;
use sqlite::{Alter, Connection, Error, Row as Shown};
use std::alloc::Global;
use worker_table::row_table::{Post, PostedRow, Row, Table, TableError, WithOutbox};

/// The name of the outbox.
pub const OUTBOX: &str = "outbox";

/// The statement that creates the outbox.
pub const OUTBOX_CREATE: &str =
    "CREATE TABLE outbox (milliseconds INTEGER NOT NULL, sequence INTEGER NOT NULL, command BLOB NOT NULL, question BLOB NOT NULL, PRIMARY KEY (milliseconds, sequence)) STRICT";

const ENQUEUE: &str =
    "INSERT INTO outbox (milliseconds, sequence, command, question) VALUES (?1, ?2, ?3, ?4)";

const FIRST: &str =
    "SELECT milliseconds, sequence, command, question FROM outbox ORDER BY milliseconds, sequence LIMIT 1";

const COUNT: &str = "SELECT count(*) FROM outbox";

const REMOVE: &str = "DELETE FROM outbox WHERE milliseconds = ?1 AND sequence = ?2";

/// A table of a database, with the outbox in the table `outbox` of the same database.
#[derive(Drop)]
pub struct SqliteOutbox<S: Alter + Drop> {
    table: SqliteTable<S>,
}

impl<S: Alter + Drop> SqliteOutbox<S> {
    /// Adds the outbox to `table`. Creates the outbox if it does not exist.
    pub fn beside(alloc: Global, table: SqliteTable<S>) -> Result<SqliteOutbox<S>, OpenError>
        ensures named { IfErr result IsNamedAtOpening }
        ensures form { IfOk result (λ outbox. outbox.table.form ≡ table.form) }
        ensures made { IfOk result (λ outbox. IsMade S.Store table.conn outbox.table.conn (codes "outbox") outbox_create) }
    {
        let mut table = table;
        make(alloc, &mut table.conn, OUTBOX, OUTBOX_CREATE)?;
        Ok(SqliteOutbox { table })
    }

    /// Returns the table.
    pub fn into_table(self) -> SqliteTable<S>
        ensures { result ≡ self.table }
    {
        self.table
    }
}

impl<S: Alter + Drop> WithOutbox for SqliteOutbox<S> {
    ghost seen = { λ _. None };

    ghost committed = { λ _. None };

    ghost may_leave = { λ _ _. Unit {0} };

    ghost is_open = { λ _. None };

    /// Executes `BEGIN`.
    fn begin(&mut self) -> Result<(), TableError>
        ensures ran { OnOk result ((count : ℕ)
            × Ran S.Store self.old.table.conn self.new.table.conn (codes "BEGIN") [] count) }
        ensures leaves { LeavesBy S.Store self.old.table.conn self.new.table.conn (codes "BEGIN") [] }
        ensures form { self.new.table.form ≡ self.old.table.form }
    {
        self.table.begin()
    }

    /// Executes `INSERT .. ON CONFLICT DO NOTHING` with the key and the values.
    fn insert(&mut self, alloc: Global, row: &Row) -> Result<bool, TableError>
        ensures ran { IfOk result (RanOne S.Store self.old.table.conn self.new.table.conn
            (string_bytes self.old.table.form.insert) (row_values (row_of row.now))) }
        ensures form { self.new.table.form ≡ self.old.table.form }
    {
        self.table.insert(alloc, row)
    }

    /// Executes `SELECT` with the key and the values.
    fn holds(&mut self, alloc: Global, row: &Row) -> Result<bool, TableError>
        ensures shows { IfOk result (Shows S.Store self.old.table.conn self.new.table.conn
            (string_bytes self.old.table.form.holds) (row_values (row_of row.now))) }
        ensures form { self.new.table.form ≡ self.old.table.form }
    {
        self.table.holds(alloc, row)
    }

    /// Executes `INSERT` with the key, the command and the query.
    fn enqueue(&mut self, alloc: Global, row: &PostedRow) -> Result<(), TableError>
        ensures ran { OnOk result ((count : ℕ) × Ran S.Store self.old.table.conn self.new.table.conn
            enqueue_text (post_values (post_for (posted_of row.now))) count) }
        ensures form { self.new.table.form ≡ self.old.table.form }
    {
        let values = values_of_post(alloc, row)?;
        write(&mut self.table.conn, ENQUEUE, &values)
    }

    /// Executes `SELECT .. ORDER BY milliseconds, sequence LIMIT 1`.
    fn first(&mut self, alloc: Global) -> Result<Option<Post>, TableError>
        ensures found { IfOk result (λ found. FoundPost S.Store self.old.table.conn self.new.table.conn
            first_text (option_map post_of found)) }
        ensures form { self.new.table.form ≡ self.old.table.form }
    {
        find_first_post(alloc, &mut self.table.conn)
    }

    /// Executes `DELETE` with the key.
    fn remove(&mut self, alloc: Global, post: &Post) -> Result<(), TableError>
        ensures ran { OnOk result ((count : ℕ) × Ran S.Store self.old.table.conn self.new.table.conn
            remove_text (key_values (post_of post.now).key) count) }
        ensures form { self.new.table.form ≡ self.old.table.form }
    {
        let values = values_of_key(alloc, post.first, post.second)?;
        write(&mut self.table.conn, REMOVE, &values)
    }

    /// Executes `COMMIT`.
    fn commit(&mut self) -> Result<(), TableError>
        ensures ran { OnOk result ((count : ℕ)
            × Ran S.Store self.old.table.conn self.new.table.conn (codes "COMMIT") [] count) }
        ensures leaves { LeavesBy S.Store self.old.table.conn self.new.table.conn (codes "COMMIT") [] }
        ensures form { self.new.table.form ≡ self.old.table.form }
    {
        self.table.commit()
    }

    /// Executes `ROLLBACK`, if a transaction is open.
    fn roll_back(&mut self)
        ensures taken_back { TakesBack S.Store self.old.table.conn self.new.table.conn }
        ensures form { self.new.table.form ≡ self.old.table.form }
    {
        self.table.roll_back();
    }
}

/// The posts in an outbox.
#[derive(Drop)]
pub struct Waiting {
    /// The number of posts.
    pub count: u64,
    /// The post with the smallest key.
    pub first: Post,
}

impl<S: Alter + Drop> SqliteTable<S> {
    /// Returns the posts in the outbox of the database. Returns `None` if there is no outbox, or if the outbox
    /// is empty.
    pub fn waiting(&mut self, alloc: Global) -> Result<Option<Waiting>, TableError>
        ensures shown { IfOk result (λ found. WaitsIn S.Store self.old.conn self.new.conn
            (option_map (λ w. (w.count, post_of w.first)) found)) }
        ensures form { self.new.form ≡ self.old.form }
    {
        if !has_outbox(alloc, &mut self.conn)? {
            return Ok(None);
        }
        let Some(first) = find_first_post(alloc, &mut self.conn)? else {
            return Ok(None);
        };
        let count = count_posts(&mut self.conn)?;
        Ok(Some(Waiting { count, first }))
    }
}

/// Whether the database has an outbox that `OUTBOX_CREATE` created.
fn has_outbox<S: Alter + Drop>(alloc: Global, conn: &mut Connection<S>) -> Result<bool, TableError>
    ensures { IfOk result (ShowsOutbox S.Store conn.old conn.new) }
{
    match find_definition(alloc, conn, OUTBOX)? {
        None => Ok(false),
        Some(text) if text.as_slice() == OUTBOX_CREATE.as_bytes() => Ok(true),
        Some(_) => Ok(false),
    }
}

/// Returns the number of posts in the outbox.
fn count_posts<S: Alter + Drop>(conn: &mut Connection<S>) -> Result<u64, TableError>
    ensures { IfOk result (Counts S.Store conn.old conn.new) }
{
    match conn.query_row(COUNT, &[]) {
        Ok(row) => read_number(&row, 0),
        Err(error) => Err(convert_error(error)),
    }
}

/// Executes a statement with these values.
fn write<S: Alter + Drop>(
    conn: &mut Connection<S>,
    sql: &str,
    values: &[ValueRef<'_>],
) -> Result<(), TableError>
    ensures { OnOk result ((count : ℕ) × Ran S.Store conn.old conn.new sql.now (bound values.now) count) }
{
    match conn.execute(sql, values) {
        Ok(_) => Ok(()),
        Err(error) => Err(convert_error(error)),
    }
}

/// Returns the post with the smallest key, or `None` if there are no posts.
fn find_first_post<S: Alter + Drop>(
    alloc: Global,
    conn: &mut Connection<S>,
) -> Result<Option<Post>, TableError>
    ensures { IfOk result (λ found. FoundPost S.Store conn.old conn.new first_text (option_map post_of found)) }
{
    match conn.query_row(FIRST, &[]) {
        Ok(row) => Ok(Some(read_post(alloc, &row)?)),
        Err(Error::QueryReturnedNoRows) => Ok(None),
        Err(error) => Err(convert_error(error)),
    }
}

/// Reads a post from a row with two numbers and two blobs.
fn read_post(alloc: Global, row: &Shown) -> Result<Post, TableError>
    ensures { IfOk result (λ post. AreValues row.now (post_of post)) }
{
    Ok(Post {
        first: read_number(row, 0)?,
        second: read_number(row, 1)?,
        command: read_bytes(alloc, row, 2)?,
        question: read_bytes(alloc, row, 3)?,
    })
}

/// Returns the number in the column with index `at`.
fn read_number(row: &Shown, at: usize) -> Result<u64, TableError>
    ensures { IfOk result (λ number. column row.now at ≡ number_value number) }
{
    match row.get_ref(at) {
        Ok(ValueRef::Int(number)) => convert_to_unsigned(number),
        _ => Err(make_malformed_error()),
    }
}

/// Converts a number that must not be negative.
fn convert_to_unsigned(number: i64) -> Result<u64, TableError>
    ensures { IfOk result (λ n. number ≡ pos n) }
{
    match u64::try_from(number) {
        Ok(number) => Ok(number),
        Err(_) => Err(make_malformed_error()),
    }
}

/// Returns the bytes in the column with index `at`.
fn read_bytes(alloc: Global, row: &Shown, at: usize) -> Result<Vec<u8>, TableError>
    ensures { IfOk result (λ bytes. column row.now at ≡ bytes_value bytes.items) }
{
    match row.get_ref(at) {
        Ok(ValueRef::Blob(bytes)) => Ok(Vec::from_slice(alloc, bytes)?),
        _ => Err(make_malformed_error()),
    }
}
