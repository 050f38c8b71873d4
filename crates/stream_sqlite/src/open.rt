//! Opening a database with a table and an outbox.
ghost use Rattle.std.specs.Prelude.{◌≡◌, ℕ, IfOk, List, None, Option};
ghost use Rattle.worker_table.specs.RowTable.Posts.{rows_known};
ghost use Rattle.worker_table.specs.RowTable.Rows.{Row};
ghost use Rattle.stream_sqlite.specs.Form.{IsFormFor};

use crate::masked::Masked;
use crate::options::TABLE;
use anyhow::{Context, Error, Result, anyhow};
use sqlite::{File as DatabaseFile, FileStore};
use std::alloc::Global;
use std::fs::File;
use std::os::unix::fs::FileExt;
use worker_sqlite::{Form, OUTBOX, OUTBOX_CREATE, OpenError, SqliteOutbox, SqliteTable};
use worker_table::row_table::{Column, Kind, Table, WithOutbox};
use worker_table::target_of;

/// A table in a file of the operating system.
type FileTable = SqliteTable<FileStore<DatabaseFile>>;

type FileOutbox = SqliteOutbox<FileStore<DatabaseFile>>;

/// Opens the databases in files by their paths.
pub(crate) trait Open<T: Table, O: WithOutbox> {
    /// The rows of a table, given the path of its file and its name, if the rows are known.
    ghost rows: { Self → List ℕ → List ℕ → Option (List Row) };

    /// Opens the table `name` with these columns in the file at `path`. Creates the file and the table if they
    /// do not exist.
    fn open(&self, path: &str, name: &str, columns: &[Column]) -> Result<T>
        ensures { IfOk result (λ table. T.committed table ≡ rows self.now path.now name.now) };

    /// Adds the outbox to the table in the file at `path`. Creates the outbox if it does not exist.
    fn with_outbox(&self, path: &str, table: T) -> Result<O>
        ensures { IfOk result (λ outbox. rows_known (O.committed outbox) ≡ T.committed table) };

    /// Returns the table of an outbox.
    fn without_outbox(&self, outbox: O) -> T
        ensures { T.committed result ≡ rows_known (O.committed outbox) };

    /// Shows the number of commands in the outbox of the table, and the stream that they add to. Shows nothing
    /// if the outbox is empty.
    fn show_waiting(&self, table: &mut T) -> Result<()>
        ensures { T.committed table.new ≡ T.committed table.old };

    /// Closes the table in the file at `path`.
    fn close(&self, path: &str, table: T) -> Result<()>;
}

impl Open<FileTable, FileOutbox> for HostRuntime {
    ghost rows = { λ _ _ _. None };

    fn open(&self, path: &str, name: &str, columns: &[Column]) -> Result<FileTable>
        ensures { IfOk result (λ table. IsFormFor name.now columns.now table.form) }
    {
        warn_of_log(self, path)?;
        open_table(self, path, make_form(self.alloc(), name, columns)?)
    }

    fn with_outbox(&self, path: &str, table: FileTable) -> Result<FileOutbox> {
        match SqliteOutbox::beside(self.alloc(), table) {
            Ok(outbox) => Ok(outbox),
            Err(error) => Err(explain(self, path, OUTBOX, OUTBOX_CREATE, error)?),
        }
    }

    fn without_outbox(&self, outbox: FileOutbox) -> FileTable {
        outbox.into_table()
    }

    fn show_waiting(&self, table: &mut FileTable) -> Result<()> {
        let Ok(Some(waiting)) = table.waiting(self.alloc()) else {
            return Ok(());
        };
        let count = waiting.count;
        let Some(target) = target_of(self.alloc(), &waiting.first) else {
            eprintln!(self; "commands wait in the outbox: {count}")?;
            return Ok(());
        };
        let target = Masked(&target);
        if count == 1 {
            eprintln!(self; "1 command waits in the outbox, for {target}")?;
        } else {
            eprintln!(self; "{count} commands wait in the outbox, the first one for {target}")?;
        }
        Ok(())
    }

    fn close(&self, path: &str, table: FileTable) -> Result<()> {
        table.close().context(format_args!("cannot close {path}"))
    }
}

/// Opens the table of `form` in the file at `path`.
fn open_table(rt: &HostRuntime, path: &str, form: Form) -> Result<FileTable>
    ensures { IfOk result (λ table. table.form ≡ form) }
{
    let name = form.name.clone()?;
    let wanted = form.create.clone()?;
    match SqliteTable::open(rt, path, form) {
        Ok(table) => Ok(table),
        Err(error) => Err(explain(rt, path, &name, &wanted, error)?),
    }
}

/// Returns the statements of the table `name` with these columns. If there are no columns, the table has one
/// text.
fn make_form(alloc: Global, name: &str, columns: &[Column]) -> Result<Form>
    ensures { IfOk result (IsFormFor name.now columns.now) }
{
    if !columns.is_empty() {
        return Ok(Form::of(alloc, name, columns)?);
    }
    if name == TABLE {
        return Ok(Form::usual(alloc)?);
    }
    let mut fields = Vec::new(alloc);
    fields.push(Column {
        name: String::from_str(alloc, "fields")?,
        kind: Kind::Text,
        optional: false,
    })?;
    Ok(Form::of(alloc, name, &fields)?)
}

/// Returns the error of a table that could not be opened. If the table exists in another form, prints that form
/// and the wanted form.
fn explain(
    rt: &HostRuntime,
    path: &str,
    name: &str,
    wanted: &str,
    error: OpenError,
) -> Result<Error> {
    let error = match error {
        OpenError::Table(error) => Error::from(error),
        OpenError::Another(there) => {
            eprintln!(rt; "there: {}", Masked(&there))?;
            eprintln!(rt; "wanted: {}", Masked(wanted))?;
            anyhow!("its table `{name}` has another form")
        }
    };
    Ok(error.context(format_args!("cannot open {path}")))
}

/// Prints a warning if the file in place of the write-ahead log is not such a log. The database ignores such a
/// file.
fn warn_of_log(rt: &HostRuntime, path: &str) -> Result<()> {
    let path = format!(in rt.alloc(); "{path}-wal")?;
    let Ok(file) = File::open(rt, path.as_str()) else {
        return Ok(());
    };
    let mut head = [0; 8];
    let is_log = match file.read_at(&mut head, 0) {
        Ok(0) => true,
        Ok(8) => is_head_of_log(&head),
        _ => false,
    };
    if !is_log {
        eprintln!(rt; "{path} is no log of a database: nothing of it is taken in")?;
    }
    Ok(())
}

/// Whether `head` is the beginning of a write-ahead log of SQLite.
fn is_head_of_log(head: &[u8]) -> bool {
    matches!(
        head,
        [0x37, 0x7f, 0x06, 0x82 | 0x83, 0x00, 0x2d, 0xe2, 0x18]
    )
}
