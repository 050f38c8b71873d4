//! A handler that stores entries as rows of a table.
ghost use Rattle.std.specs.Prelude.{◌≡◌, ◌↔◌, IsTrue, ◌++◌, ◌∷◌, [], ◌+◌, ◌-◌, ◌^◌, ◌<◌, false, min, true, ℕ, List, IfErr, IfOk, IfSome, IsSomeAnd, OnErr, OnOk, string_bytes};
ghost use Rattle.worker_table.specs.RowTable.OfRow.{row_of, rows_of};
ghost use Rattle.worker_table.specs.RowTable.Rows.{AreKnown, LeavesJust, LeavesOldOr, with_known};
ghost use Rattle.worker_table.specs.Kept.{Kept, committed_with, kept_by, kept_too, row_in};
ghost use Rattle.worker_table.specs.Reasons.{IsFaultOf, IsUnfitFor, is_unfit};
ghost use Rattle.worker.specs.Handling.{pair_of, verdict_of};

use crate::columns::{CellsError, entry_cells};
use crate::row_table::{Column, Row, Table, TableError, put_all};
use std::alloc::Global;
use stream_in_place::{FieldError, StreamIdParts};
use thiserror::Error;
use worker::{EntryRef, Handler, NotCommitted, Verdict};

/// Each number of a key is below this bound.
const KEYS_END: u64 = 1 << 63;

/// Why an entry is not a row.
#[derive(Debug, Drop, Error)]
pub enum Fault {
    /// The id is not two numbers of 64 bits.
    #[error("an id is not two numbers")]
    NotAnId,
    /// The error of the table.
    #[error("{0}")]
    Table(TableError),
    /// The field `name` of the entry has no value for its column.
    #[error("the field {name} of the entry {first}-{second}: {why}")]
    Field {
        first: u64,
        second: u64,
        name: String,
        why: FieldError,
    },
}

impl Fault {
    /// Whether the entry itself cannot be a row because its id or a field does not fit the table.
    pub fn is_unfit(&self) -> bool
        ensures { result ≡ is_unfit self.now }
    {
        match self {
            Fault::NotAnId | Fault::Field { .. } => true,
            Fault::Table(error) => matches!(error, TableError::KeyTooLarge { .. }),
        }
    }
}

/// A handler that stores entries as rows of a table.
#[derive(Drop)]
pub struct Rows<T: Table + Drop> {
    table: T,
    /// The columns of the table. If there are none, a row has one text of all fields.
    columns: Vec<Column>,
    /// The rows of the entries that are done and not committed.
    loose: Vec<Row>,
    /// Whether an entry that cannot be a row is left pending, so that the worker goes on.
    leaves_unfit: bool,
    /// The number of entries that were delivered, that were done, and that were done and committed.
    pub seen: u64,
    pub done: u64,
    pub committed: u64,
    /// The number of entries left pending.
    pub left: u64,
    /// Why the handler stopped, did not commit, or left the last pending entry.
    pub fault: Option<Fault>,
    /// The id of the entry at which the handler stopped, or of the last entry left pending, if there was memory
    /// to keep it.
    pub undone: Option<String>,
}

impl<T: Table + Drop> Rows<T> {
    /// Creates a handler over `table` with no gathered rows. A row has one text of all fields.
    pub fn new(alloc: Global, table: T) -> Rows<T>
        ensures { (result.table ≡ table) × (result.columns.items ≡ []) × (result.loose.items ≡ [])
            × (result.seen ≡ 0) × (result.done ≡ 0) × (result.committed ≡ 0)
            × (result.left ≡ 0) × (result.leaves_unfit ≡ false) }
    {
        Rows::with_columns(alloc, table, Vec::new(alloc))
    }

    /// Creates a handler over `table` with no gathered rows. A row has a value for each column. If there are no
    /// columns, a row has one text of all fields.
    pub fn with_columns(alloc: Global, table: T, columns: Vec<Column>) -> Rows<T>
        ensures { (result.table ≡ table) × (result.columns ≡ columns) × (result.loose.items ≡ [])
            × (result.seen ≡ 0) × (result.done ≡ 0) × (result.committed ≡ 0)
            × (result.left ≡ 0) × (result.leaves_unfit ≡ false) }
    {
        Rows {
            table,
            columns,
            loose: Vec::new(alloc),
            leaves_unfit: false,
            seen: 0,
            done: 0,
            committed: 0,
            left: 0,
            fault: None,
            undone: None,
        }
    }

    /// Sets whether an entry that cannot be a row is left pending, so that the worker goes on with the next one.
    pub fn leave_unfit(&mut self, leaves_unfit: bool)
        ensures { self.new ≡ record self.old { leaves_unfit = leaves_unfit } }
    {
        self.leaves_unfit = leaves_unfit;
    }

    /// Whether every entry that is done is committed.
    pub fn is_committed(&self) -> bool
        ensures { IsTrue result ↔ self.now.loose.items ≡ [] }
    {
        self.loose.is_empty()
    }

    /// Returns the table.
    pub fn into_table(self) -> T
        ensures { result ≡ self.table }
    {
        self.table
    }

    /// Adds the row of an entry to the gathered rows.
    fn gather(&mut self, alloc: Global, entry: &EntryRef<'_>) -> Result<(), Fault>
        ensures ok { OnOk result (rows_of self.new.loose.items
            ≡ rows_of self.old.loose.items ++ row_in self.old.columns.items (pair_of entry.now) ∷ []) }
        ensures err { OnErr result (self.new.loose.items ≡ self.old.loose.items) }
        ensures why { IfErr result (IsFaultOf self.old.columns.items (pair_of entry.now)) }
        ensures counts { (self.new.leaves_unfit ≡ self.old.leaves_unfit) × (self.new.seen ≡ self.old.seen) }
        ensures table { self.new.table ≡ self.old.table }
        ensures columns { self.new.columns ≡ self.old.columns }
    {
        let row = row_of_entry(alloc, &self.columns, entry)?;
        match self.loose.push(row) {
            Ok(()) => Ok(()),
            Err(_) => Err(Fault::Table(TableError::Memory)),
        }
    }
}

impl<T: Table + Drop> Handler for Rows<T> {
    ghost History = { Kept };

    ghost with_verdict = { kept_too };

    ghost with_commit = { committed_with };

    ghost history = { λ h. kept_by h.columns.items h.loose.items (T.committed h.table) };

    /// Adds the row of the entry to the gathered rows, and returns `Done`. If the entry cannot be a row, it is
    /// left pending if `leave_unfit` was set. Otherwise the worker stops.
    fn handle(&mut self, alloc: Global, entry: &EntryRef<'_>) -> Verdict
        ensures history { ⟦<Rows<T> as Handler>⟧.history self.new
            ≡ kept_too (⟦<Rows<T> as Handler>⟧.history self.old) (pair_of entry.now) (verdict_of result) }
        ensures table { self.new.table ≡ self.old.table }
        ensures columns { self.new.columns ≡ self.old.columns }
        ensures undone { result ≡ Verdict.Stop → IfSome self.new.undone (λ id. string_bytes id ≡ (pair_of entry.now).0) }
        ensures seen { self.new.seen ≡ min (self.old.seen + 1) (2 ^ 64 - 1) }
        ensures left { result ≡ Verdict.LeavePending → (self.old.leaves_unfit ≡ true)
            × IsSomeAnd self.new.fault (IsUnfitFor self.old.columns.items (pair_of entry.now)) }
        ensures stops { result ≡ Verdict.Stop → self.old.leaves_unfit ≡ true
            → IsSomeAnd self.new.fault (λ fault. is_unfit fault ≡ false) }
        ensures goes_on { self.new.leaves_unfit ≡ self.old.leaves_unfit }
    {
        self.seen = self.seen.saturating_add(1);
        match self.gather(alloc, entry) {
            Ok(()) => {
                self.done = self.done.saturating_add(1);
                Verdict::Done
            }
            Err(fault) => {
                let is_left = self.leaves_unfit && fault.is_unfit();
                self.fault = Some(fault);
                self.undone = String::from_str(alloc, entry.id()).ok();
                if is_left {
                    self.left = self.left.saturating_add(1);
                    return Verdict::LeavePending;
                }
                Verdict::Stop
            }
        }
    }

    /// Inserts the gathered rows in one transaction. After `Ok` the table has each row with its own fields,
    /// also after a crash. After an `Err` the table is unchanged, and the next commit inserts these rows too.
    fn commit(&mut self, alloc: Global) -> Result<(), NotCommitted>
        ensures there { OnOk result (AreKnown (rows_of self.old.loose.items) (T.committed self.new.table)) }
        ensures durable { OnOk result (LeavesJust (T.committed self.new.table) (T.may_leave self.new.table)) }
        ensures crash { LeavesOldOr (with_known (rows_of self.old.loose.items) (T.committed self.old.table))
            (T.may_leave self.old.table) (T.may_leave self.new.table) }
        ensures history { OnOk result (⟦<Rows<T> as Handler>⟧.history self.new
            ≡ committed_with (⟦<Rows<T> as Handler>⟧.history self.old)) }
        ensures history_kept { OnErr result (⟦<Rows<T> as Handler>⟧.history self.new
            ≡ ⟦<Rows<T> as Handler>⟧.history self.old) }
    {
        match put_all(alloc, &mut self.table, &self.loose) {
            Ok(()) => {
                self.loose.clear();
                self.committed = self.done;
                Ok(())
            }
            Err(error) => {
                self.fault = Some(Fault::Table(error));
                Err(NotCommitted)
            }
        }
    }
}

/// Returns the row of an entry. An id is an error if its milliseconds or its sequence number is at least 2^63.
pub fn row_of_entry(alloc: Global, columns: &[Column], entry: &EntryRef<'_>) -> Result<Row, Fault>
    ensures row { IfOk result (λ row. row_of row ≡ row_in columns.now (pair_of entry.now)) }
    ensures small { IfOk result (λ row. (row.first < 2 ^ 63) × (row.second < 2 ^ 63)) }
    ensures why { IfErr result (IsFaultOf columns.now (pair_of entry.now)) }
{
    let Some(StreamIdParts { ms, seq }) = StreamIdParts::parse(entry.id().as_bytes()) else {
        return Err(Fault::NotAnId);
    };
    if ms >= KEYS_END || seq >= KEYS_END {
        return Err(Fault::Table(TableError::KeyTooLarge {
            first: ms,
            second: seq,
        }));
    }
    match entry_cells(alloc, columns, entry) {
        Ok(cells) => Ok(Row {
            first: ms,
            second: seq,
            cells,
        }),
        Err(CellsError::Memory) => Err(Fault::Table(TableError::Memory)),
        Err(CellsError::Field(name, why)) => Err(Fault::Field {
            first: ms,
            second: seq,
            name,
            why,
        }),
    }
}
