//! A handler that stores entries as rows of a table and forwards them to another stream.
ghost use Rattle.std.specs.Prelude.{◌≡◌, ◌↔◌, IsTrue, ◌++◌, ◌∷◌, ◌⊎◌, [], ◌+◌, ◌-◌, ◌^◌, false, min, true, IfErr, IfSome, IsSomeAnd, OnErr, OnOk, string_bytes};
ghost use Rattle.worker_table.specs.RowTable.OfPost.{all_posted};
ghost use Rattle.worker_table.specs.RowTable.Posts.{rows_in, rows_known, with_known_posted};
ghost use Rattle.worker_table.specs.RowTable.Rows.{AreKnown, LeavesJust, LeavesOldOr};
ghost use Rattle.worker_table.specs.Forwarded.{HasSent, LeavesSent, forwarding_kept, posted_in};
ghost use Rattle.worker_table.specs.Kept.{Kept, committed_with, kept_too};
ghost use Rattle.worker_table.specs.Reasons.{IsFaultOf, IsUnfitFor, is_unfit};
ghost use Rattle.worker.specs.Handling.{pair_of, verdict_of};

use crate::handler::{Fault, row_of_entry};
use crate::posts::posted_row;
use crate::row_table::{Column, PostedRow, TableError, WithOutbox, put_all_posted};
use crate::sending::{SendError, send_posts};
use redis_connection::Connection;
use redis_wire::PackError;
use std::alloc::Global;
use std::io::{Read, Write};
use worker::{EntryRef, Handler, NotCommitted, Verdict};

/// A handler that stores entries as rows of a table, as `Rows` does, and forwards them. After the commit each
/// entry is added to another stream under its own id, with its own fields.
#[derive(Drop)]
pub struct Forwarding<T: WithOutbox + Drop> {
    table: T,
    /// The columns of the table. If there are none, a row has one text of all fields.
    columns: Vec<Column>,
    /// The key of the stream that entries are forwarded to.
    target: String,
    /// The rows of the entries that are done and not committed, with their commands.
    loose: Vec<PostedRow>,
    /// Whether an entry that cannot be a row is left pending, so that the worker goes on.
    leaves_unfit: bool,
    /// The number of entries that were delivered, that were done, and that were done and committed.
    pub seen: u64,
    pub done: u64,
    pub committed: u64,
    /// The number of entries left pending.
    pub left: u64,
    /// The number of entries that were forwarded and got a reply.
    pub sent: u64,
    /// Why the handler stopped, did not commit, or left the last pending entry.
    pub fault: Option<Fault>,
    /// The id of the entry at which the handler stopped, or of the last entry left pending, if there was memory
    /// to keep it.
    pub undone: Option<String>,
}

impl<T: WithOutbox + Drop> Forwarding<T> {
    /// Creates a handler over `table` with no gathered rows. A row has a value for each column, or one text of
    /// all fields if there are no columns. Entries are forwarded to the stream `target`.
    pub fn new(alloc: Global, table: T, columns: Vec<Column>, target: String) -> Forwarding<T>
        ensures { (result.table ≡ table) × (result.columns ≡ columns) × (result.target ≡ target)
            × (result.loose.items ≡ []) × (result.seen ≡ 0) × (result.done ≡ 0) × (result.committed ≡ 0)
            × (result.left ≡ 0) × (result.leaves_unfit ≡ false)
            × (result.sent ≡ 0) }
    {
        Forwarding {
            table,
            columns,
            target,
            loose: Vec::new(alloc),
            leaves_unfit: false,
            seen: 0,
            done: 0,
            committed: 0,
            left: 0,
            sent: 0,
            fault: None,
            undone: None,
        }
    }

    /// Returns the stream that entries are forwarded to.
    pub fn target(&self) -> &str
        ensures { result.now ≡ string_bytes self.now.target }
    {
        self.target.as_str()
    }

    /// Sets whether an entry that cannot be a row is left pending, so that the worker goes on with the next one.
    pub fn leave_unfit(&mut self, leaves_unfit: bool)
        ensures { self.new ≡ record self.old { leaves_unfit = leaves_unfit } }
    {
        self.leaves_unfit = leaves_unfit;
    }

    /// Whether every entry that is done is committed.
    pub fn is_committed(&self) -> bool
        ensures { IsTrue result ↔ self.now.loose.items ≡ [] }
    {
        self.loose.is_empty()
    }

    /// Returns the table.
    pub fn into_table(self) -> T
        ensures { result ≡ self.table }
    {
        self.table
    }

    /// Forwards the committed entries that got no reply yet, as `send_posts` does.
    pub fn send<R: Read + Drop, W: Write + Drop>(
        &mut self,
        alloc: Global,
        connection: &mut Connection<R, W>,
    ) -> Result<(), SendError>
        ensures ok { OnOk result (HasSent result connection.old (T.committed self.old.table)
            connection.new (T.committed self.new.table)) }
        ensures err { OnErr result ((T.committed self.new.table ≡ T.committed self.old.table)
            ⊎ HasSent result connection.old (T.committed self.old.table) connection.new (T.committed self.new.table)) }
        ensures crash { LeavesSent connection.old (T.committed self.old.table)
            (T.may_leave self.old.table) (T.may_leave self.new.table) }
        ensures history { ⟦<Forwarding<T> as Handler>⟧.history self.new
            ≡ ⟦<Forwarding<T> as Handler>⟧.history self.old }
        ensures loose { self.new.loose ≡ self.old.loose }
        ensures columns { self.new.columns ≡ self.old.columns }
    {
        send_posts(alloc, &mut self.table, connection, &mut self.sent)
    }

    /// Adds the row of an entry to the gathered rows, with the command that forwards the entry.
    fn gather(&mut self, alloc: Global, entry: &EntryRef<'_>) -> Result<(), Fault>
        ensures ok { OnOk result (all_posted self.new.loose.items ≡ all_posted self.old.loose.items
            ++ posted_in (string_bytes self.old.target) self.old.columns.items (pair_of entry.now) ∷ []) }
        ensures err { OnErr result (self.new.loose.items ≡ self.old.loose.items) }
        ensures why { IfErr result (λ fault. is_unfit fault ≡ true
            → IsFaultOf self.old.columns.items (pair_of entry.now) fault) }
        ensures counts { (self.new.leaves_unfit ≡ self.old.leaves_unfit) × (self.new.seen ≡ self.old.seen) }
        ensures table { self.new.table ≡ self.old.table }
        ensures columns { self.new.columns ≡ self.old.columns }
        ensures target { self.new.target ≡ self.old.target }
    {
        let row = row_of_entry(alloc, &self.columns, entry)?;
        let posted = match posted_row(alloc, &self.target, row, entry) {
            Ok(posted) => posted,
            Err(error) => return Err(convert_pack_error(error)),
        };
        match self.loose.push(posted) {
            Ok(()) => Ok(()),
            Err(_) => Err(Fault::Table(TableError::Memory)),
        }
    }
}

/// Returns the fault of an entry whose command could not be encoded.
fn convert_pack_error(error: PackError) -> Fault
    ensures { is_unfit result ≡ false }
{
    match error {
        PackError::Memory => Fault::Table(TableError::Memory),
        _ => Fault::Table(TableError::Refused("the command is too long")),
    }
}

impl<T: WithOutbox + Drop> Handler for Forwarding<T> {
    ghost History = { Kept };

    ghost with_verdict = { kept_too };

    ghost with_commit = { committed_with };

    ghost history = { λ h. forwarding_kept h.columns.items (all_posted h.loose.items) (T.committed h.table) };

    /// Adds the row of the entry and the command that forwards it to the gathered rows, and returns `Done`. If
    /// the entry cannot be a row, it is left pending if `leave_unfit` was set. Otherwise the worker stops.
    fn handle(&mut self, alloc: Global, entry: &EntryRef<'_>) -> Verdict
        ensures posted { result ≡ Verdict.Done → all_posted self.new.loose.items ≡ all_posted self.old.loose.items
            ++ posted_in (string_bytes self.old.target) self.old.columns.items (pair_of entry.now) ∷ [] }
        ensures history { ⟦<Forwarding<T> as Handler>⟧.history self.new
            ≡ kept_too (⟦<Forwarding<T> as Handler>⟧.history self.old) (pair_of entry.now) (verdict_of result) }
        ensures table { self.new.table ≡ self.old.table }
        ensures columns { self.new.columns ≡ self.old.columns }
        ensures target { self.new.target ≡ self.old.target }
        ensures undone { result ≡ Verdict.Stop → IfSome self.new.undone (λ id. string_bytes id ≡ (pair_of entry.now).0) }
        ensures seen { self.new.seen ≡ min (self.old.seen + 1) (2 ^ 64 - 1) }
        ensures left { result ≡ Verdict.LeavePending → (self.old.leaves_unfit ≡ true)
            × IsSomeAnd self.new.fault (IsUnfitFor self.old.columns.items (pair_of entry.now)) }
        ensures stops { result ≡ Verdict.Stop → self.old.leaves_unfit ≡ true
            → IsSomeAnd self.new.fault (λ fault. is_unfit fault ≡ false) }
        ensures goes_on { self.new.leaves_unfit ≡ self.old.leaves_unfit }
    {
        self.seen = self.seen.saturating_add(1);
        match self.gather(alloc, entry) {
            Ok(()) => {
                self.done = self.done.saturating_add(1);
                Verdict::Done
            }
            Err(fault) => {
                let is_left = self.leaves_unfit && fault.is_unfit();
                self.fault = Some(fault);
                self.undone = String::from_str(alloc, entry.id()).ok();
                if is_left {
                    self.left = self.left.saturating_add(1);
                    return Verdict::LeavePending;
                }
                Verdict::Stop
            }
        }
    }

    /// Inserts the gathered rows with their posts in one transaction. After an `Err` the table is unchanged,
    /// and the next commit inserts these rows too.
    fn commit(&mut self, alloc: Global) -> Result<(), NotCommitted>
        ensures posted { OnOk result (T.committed self.new.table
            ≡ with_known_posted (all_posted self.old.loose.items) (T.committed self.old.table)) }
        ensures there { OnOk result (AreKnown (rows_in (all_posted self.old.loose.items))
            (rows_known (T.committed self.new.table))) }
        ensures kept { OnErr result (T.committed self.new.table ≡ T.committed self.old.table) }
        ensures durable { OnOk result (LeavesJust (T.committed self.new.table) (T.may_leave self.new.table)) }
        ensures crash { LeavesOldOr (with_known_posted (all_posted self.old.loose.items) (T.committed self.old.table))
            (T.may_leave self.old.table) (T.may_leave self.new.table) }
        ensures history { OnOk result (⟦<Forwarding<T> as Handler>⟧.history self.new
            ≡ committed_with (⟦<Forwarding<T> as Handler>⟧.history self.old)) }
        ensures history_kept { OnErr result (⟦<Forwarding<T> as Handler>⟧.history self.new
            ≡ ⟦<Forwarding<T> as Handler>⟧.history self.old) }
    {
        match put_all_posted(alloc, &mut self.table, &self.loose) {
            Ok(()) => {
                self.loose.clear();
                self.committed = self.done;
                Ok(())
            }
            Err(error) => {
                self.fault = Some(Fault::Table(error));
                Err(NotCommitted)
            }
        }
    }
}
